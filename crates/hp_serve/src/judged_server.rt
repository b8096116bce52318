use crate::decide::Decide;
use crate::limits::Limits;
use crate::server::Server;
use hp_base::Mapper;

/// What serves and asks for a participant, and the validators that its lines left: it serves by these, also while others do their lines. Own.
#[derive(Drop)]
pub struct JudgedServer<'p, M: Mapper, F: Decide + Copy + Drop> {
    /// What serves and asks.
    pub server: Server<'p, M>,
    /// The validators that its coordinator asks. Participant 0 alone has any.
    pub limits: Limits<F>,
}
