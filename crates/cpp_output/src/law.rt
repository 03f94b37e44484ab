// An output that grows event by event is the output of all its events.
ghost use Rattle.std.specs.Prelude.{◌≡◌, ℕ, List};
ghost use Rattle.cpp_output.specs.Layout.{Event, laid_out};
ghost use Rattle.cpp_output.specs.Laid.{begun, after_events, finished};

/// A law, which takes no work: whatever the events, the text that grew with them, finished, is the text that the
/// list of all of them has.
pub fn layout_law()
    ensures { (name : List ℕ) → (es : List Event) → finished (after_events (begun name) es) ≡ laid_out name es }
{}
