// For which ids there are slots.
ghost use Rattle.std.specs.Prelude.{◌≡◌, ◌<◌, IfSome};
ghost use Rattle.id_map.specs.Entries.{slot_in};

/// At most so many slots for each id.
const SLOTS_PER_ID: usize = 16;

/// How many slots a map has at most for so many ids.
pub fn most_slots(ids: usize) -> usize {
    ids.saturating_mul(SLOTS_PER_ID).saturating_add(64)
}

/// Which ids there are to be slots for: the range of some ids other than 0, and how many they are.
#[derive(Clone, Copy, Debug)]
pub struct Span {
    least: u32,
    greatest: u32,
    count: usize,
}

impl Span {
    /// The span of no ids.
    pub const fn new() -> Span {
        Span {
            least: u32::MAX,
            greatest: 0,
            count: 0,
        }
    }

    /// The span of these ids.
    pub fn of(ids: &[u32]) -> Span {
        let mut span = Span::new();
        for id in ids {
            span.add(*id);
        }
        span
    }

    /// Adds an id; 0 is none.
    pub fn add(&mut self, id: u32) {
        if id != 0 {
            self.least = self.least.min(id);
            self.greatest = self.greatest.max(id);
            self.count = self.count.saturating_add(1);
        }
    }

    /// The least id that has a slot, and how many slots there are from it on: those of all ids, or of the greatest ones where the
    /// range is too wide for so few (the ids of a function lie above those that it takes from outside).
    pub fn slots(&self) -> (u32, usize) {
        if self.count == 0 {
            return (0, 0);
        }
        let wanted = self.greatest.saturating_sub(self.least) as usize + 1;
        let most = most_slots(self.count);
        if wanted <= most {
            return (self.least, wanted);
        }
        let left_out = u32::try_from(wanted - most).unwrap_or(0);
        (self.least.saturating_add(left_out), most)
    }
}

/// The number of the slot of an id, where it has one of so many slots from the least id on.
#[inline(always)]
#[tactic(auto, unfolding(crate::specs::Entries::slot_in))]
pub fn slot(least: u32, count: usize, id: u32) -> Option<usize>
    ensures slot { result ≡ slot_in least count id }
    ensures within { IfSome result (λ k. k < count) }
{
    if id < least {
        return None;
    }
    let k = (id - least) as usize;
    if k < count { Some(k) } else { None }
}
