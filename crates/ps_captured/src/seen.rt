//! What is seen in a text.

ghost use Rattle.std.specs.Prelude.{◌≡◌, OnOk};
ghost use Rattle.ps_captured.specs.InsideReading.{put, sight_of, sights};

use ps_base::{Items, NoMemory, Place};
use ps_kernel::GroupEntry;

/// What a place in a text says of locals and lambdas.
#[derive(Clone, Copy, Drop)]
pub enum Seen<'a> {
    /// A lambda stands there, in this group or in none.
    Stands(u32, &'a [GroupEntry]),
    /// A local is bound, as a parameter or by a let.
    Binds(u32),
    /// A local is bound by a letrec.
    Enters(u32),
    /// A local is mentioned.
    Mentions(u32),
    /// A local is assigned, by the form at a place.
    Sets(Place, u32),
}

/// What is seen in a text, in order.
pub type Sights<'a> = Items<Seen<'a>>;

/// One more is seen.
pub fn see<'a>(seen: &mut Sights<'a>, sight: Seen<'a>) -> Result<(), NoMemory>
    ensures { OnOk result (sights seen.new ≡ put (sights seen.old) (sight_of sight.entry)) }
{
    seen.push(sight)?;
    Ok(())
}
