// Opening the feeds.
ghost use Rattle.std.specs.Prelude.{◌≡◌, IfOk, true};
ghost use Rattle.kq_world.specs.Outside.{OpensByCause};
ghost use Rattle.kq_program_options.specs.Words.{are_distinct};
ghost use Rattle.kq_program.specs.Opening.{AreOpened, AsksInOrder};

use crate::opened::{Opened, OpenedSession};
use kq_value::Text;
use kq_world::{OpenFault, World};
use std::alloc::Global;

// Opens the feeds of these names in order, up to the first that is refused.
pub(crate) fn open_feeds<W: World>(
    alloc: Global,
    world: &mut W,
    names: Vec<Text>,
) -> Result<Vec<Opened<W>>, OpenFault>
    requires { are_distinct names.items ≡ true }
    ensures opened { IfOk result (λ v. AreOpened (W.feed_contents world.old) names.items v.items) }
    ensures first { W.first_contents world.new ≡ W.first_contents world.old }
    ensures begun { W.begun world.new ≡ W.begun world.old }
    ensures given { W.given world.new ≡ W.given world.old }
    ensures asked { AsksInOrder (W.asked world.old) (W.asked world.new) result names.items }
    ensures cause { OpensByCause (W.faults world.old) (W.faults world.new) result }
{
    let mut feeds = Vec::with_capacity(alloc, names.len())?;
    for name in names {
        let parts = match world.open_feed(name.as_str()) {
            Ok(parts) => parts,
            Err(fault) => return Err(fault),
        };
        feeds.push_reserved(OpenedSession {
            name,
            generate: None,
            parts,
        });
    }
    Ok(feeds)
}
