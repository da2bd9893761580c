// The words that were asked of an invocation.
ghost use Rattle.std.specs.Prelude.{◌+◌, ◌<◌, ◌^◌, IfSome};
ghost use Rattle.step_run.specs.Asking.{IsAnswered, HasPlace};

use crate::copies::with_words;
use crate::row::Row;

/// Takes the words that were asked of an invocation: its event is told with them. It takes no memory.
pub fn answer(row: &mut Row, words: &[u32])
    requires room { IfSome row.old.asked (HasPlace row.old words.now) }
    requires small { row.old.used + 1 < 2 ^ 64 }
    ensures { IfSome row.old.asked (IsAnswered row.old words.now row.new) }
{
    let asked = row.asked.take();
    if let Some(event) = asked {
        row.told.push_reserved(with_words(event, words));
        row.used += 1;
    }
}
