// What an accepted scan answers. It stands by itself, below the controller, so that whatever is fed with answers needs
// nothing of the controller's.
#![tactic(auto)]

use modes::Mode;

// "MD, DS, OP and electrical output", and since request 1 of document 02 "the mode and PV as well .., because MD can't
// tell Fall-back from Auto".
#[derive(Clone, Copy)]
pub struct ScanValues {
    pub md: u16,
    pub ds: u16,
    pub op: u16,
    pub electrical: u16,
    pub mode: Mode,
    pub pv: i32,
}
