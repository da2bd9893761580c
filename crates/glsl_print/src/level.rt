// How deep a statement stands.
ghost use Rattle.std.specs.Prelude.{◌≡◌, suc};
ghost use Rattle.glsl_print.specs.Level.{level_of};

/// How deep a statement stands: so many levels, counted from the top or from another level on.
#[derive(Clone, Copy)]
pub enum Level<'a> {
    Top(u8),
    Under(u8, &'a Level<'a>),
}

impl Level<'_> {
    /// One level deeper.
    #[tactic(auto, using(crate::proofs::Levels::level_rows))]
    pub fn deeper(&self) -> Level<'_>
        ensures { level_of result ≡ suc (level_of self.now) }
    {
        match self {
            Level::Top(levels) => {
                if *levels < u8::MAX {
                    return Level::Top(*levels + 1);
                }
            }
            Level::Under(levels, outer) => {
                if *levels < u8::MAX {
                    return Level::Under(*levels + 1, outer);
                }
            }
        }
        Level::Under(1, self)
    }
}
