// What a text says of one event.

use sv_types::Event;

/// An event, or the next one of `auto(0, harts)`, which a text counts on from its head to its end.
#[derive(Clone, Copy, Drop)]
pub enum Said {
    This(Event),
    Drawn,
}
