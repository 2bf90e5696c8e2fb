// A case of which only the run of calls knows whether it is open.
use loadcase::closed::ClosedCase;
use loadcase::open::OpenCase;

#[derive(Drop)]
pub enum AnyCase {
    Open(OpenCase),
    Closed(ClosedCase),
}
