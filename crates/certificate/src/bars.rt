// A search through the bars of a frame.
ghost use Rattle.std.specs.Prelude.{◌≡◌, ◌<◌, Bool};
ghost use Rattle.std.specs.Option.{option_map};
ghost use Rattle.sets.specs.Sets.{Set, first};
ghost use Rattle.sets.specs.declared.ids.BarId.{BarId};
ghost use Rattle.frame.specs.Frame.{size};
ghost use Rattle.frame.specs.Views.{frame_of};

use frame::{BarId, Frame};

// The first bar that passes a test, if one does.
pub(crate) fn first_bar<F: Fn(BarId) -> bool>(frame: &Frame<'_>, test: F) -> Option<BarId>
    requires { F.IsAlwaysCallable test }
    ensures { (s : Set) → ((k : BarId) (b : Bool) → k.0 < size (frame_of frame.now) → F.post test k b → b ≡ s k.0) → option_map (λ k. k.0) result ≡ first (size (frame_of frame.now)) s }
{
    // A chain of iterators over the numbers was tried: what it finds could not be proved in the words of sets.
    for k in 0..frame.bar_count() as u32 {
        if test(BarId(k)) {
            return Some(BarId(k));
        }
    }
    None
}
