// What is told of live instructions.
/// Of the live instructions of functions the types of the results, for which structs are written, and the ids that they mention, for
/// which constants are.
#[derive(Drop)]
pub struct Live {
    pub types: Vec<u32>,
    pub mentions: Vec<u32>,
}
