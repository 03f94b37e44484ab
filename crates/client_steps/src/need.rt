// What a client needs, and what it is answered.

use closure_memo::Kept;
use host_slots::Lease;
use sheet_build::{Sheet, SheetKey};

/// What a client can't do by itself: one atomic step, or nothing more.
pub enum Need {
    Draw,
    Look(SheetKey),
    Publish(SheetKey, Sheet),
    Take,
    Give(Lease),
    Ended,
}

/// The answer to a need. `Refused` answers a look or a publication.
pub enum Reply {
    Drawn(Option<u32>),
    Looked(Option<Sheet>),
    Kept(Kept),
    Leased(Option<Lease>),
    Given,
    Refused,
}
