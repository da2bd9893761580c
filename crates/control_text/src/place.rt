// Where a region stands.
ghost use Rattle.std.specs.Prelude.{◌≡◌};
ghost use Rattle.control_text.specs.Statements.{inside_loop, inside_switch};

/// Where a region stands: the header of the innermost loop round it, whether it is the continue construct
/// of that loop, and whether a switch stands between the loop and the region.
#[derive(Clone, Copy, Debug, PartialEq, Eq)]
pub struct Place {
    pub in_loop: Option<usize>,
    pub continues: bool,
    pub in_switch: bool,
}

/// Inside a loop, in its continue construct or in its body.
pub fn in_loop(header: usize, continues: bool) -> Place
    ensures { result ≡ inside_loop header continues }
{
    Place {
        in_loop: Some(header),
        continues,
        in_switch: false,
    }
}

/// Inside a switch that stands here.
pub fn in_switch(place: Place) -> Place
    ensures { result ≡ inside_switch place }
{
    Place {
        in_switch: true,
        ..place
    }
}
