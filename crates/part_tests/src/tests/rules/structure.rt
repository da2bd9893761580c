// The places of a small function, and the kinds of its edges.
ghost use Rattle.std.specs.Prelude.{◌≡◌, ◌<◌, length};

use nest_place::{EdgeKind, Part, Places, places};
use sample_modules::{SWITCH_IN_LOOP, function_of};
use std::test::Fail;

// These edges are there, and of these kinds.
fn have_kinds(places: &Places, count: usize, wanted: &[(usize, usize, EdgeKind)]) -> bool
    requires { count ≡ length places.now }
{
    for (from, to, kind) in wanted {
        if *from >= count
            || !places.reached(*from)
            || !places.has_edge(*from, *to)
            || places.edge(*from, *to) != *kind
        {
            return false;
        }
    }
    true
}

// These blocks are reached, and in these constructs.
fn stand_in(places: &Places, count: usize, wanted: &[(usize, &[Part])]) -> bool
    requires { count ≡ length places.now }
{
    for (block, parts) in wanted {
        if *block >= count || !places.reached(*block) || places.of(*block) != *parts {
            return false;
        }
    }
    true
}

#[test]
fn tells_places_and_kinds(rt: HostRuntime) -> Result<(), Fail> {
    let alloc = rt.alloc();
    let mut body = Vec::new(alloc);
    body.extend_from_slice(&SWITCH_IN_LOOP)?;
    body.extend_from_slice(&[0x200f8, 99, 0x200f9, 16])?;
    let module = function_of(alloc, &body)?;
    let function = module.functions().first().expect(&rt, "one function");
    let places = places(alloc, function)?;
    let count = function.blocks.len();
    assert_eq!(rt; count, 9);
    assert!(rt; !places.reached(8));
    assert!(rt;
        stand_in(
            &places,
            count,
            &[
                (0, &[]),
                (1, &[]),
                (2, &[Part::Loop(1)]),
                (3, &[Part::Case(2, 3), Part::Loop(1)]),
                (4, &[Part::Case(2, 4), Part::Loop(1)]),
                (5, &[Part::Loop(1)]),
                (6, &[Part::Cont(1)]),
                (7, &[]),
            ]
        )
    );
    assert!(rt;
        have_kinds(
            &places,
            count,
            &[
                (0, 1, EdgeKind::Enter),
                (1, 2, EdgeKind::Enter),
                (2, 5, EdgeKind::SwitchBreak),
                (2, 3, EdgeKind::Enter),
                (2, 7, EdgeKind::Break),
                (2, 6, EdgeKind::Continue),
                (3, 4, EdgeKind::Fall),
                (4, 5, EdgeKind::SwitchBreak),
                (5, 6, EdgeKind::Continue),
                (6, 1, EdgeKind::Back),
            ]
        )
    );
    Ok(())
}
