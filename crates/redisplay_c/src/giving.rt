//! What is found, put into the caller's place for it.
ghost use Rattle.redisplay_c.specs.Calls.{IsGiven};

use rd_embed::Status;

/// Puts what was found into a place of the caller, and answers how that ended.
pub fn give<A: Copy>(found: Option<A>, place: &mut A) -> Status
    ensures { IsGiven found result place.old place.new }
{
    match found {
        Some(it) => {
            *place = it;
            Status::Done
        }
        None => Status::NotThere,
    }
}
