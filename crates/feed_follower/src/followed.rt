//! What is left of a follower's run.
ghost use Rattle.std.specs.Prelude.{◌≡◌, Err, IfErr, IfOk, IsOk, Ok, OnOk, Some};
ghost use Rattle.subscriber.specs.Subscribers.{SubscriberState};

use crate::{EntrySink, FollowAccount, FollowFault};
use feed_ends::Fault;
use subscriber::Subscriber;

/// What is left of a run that is over.
#[derive(Drop)]
pub(crate) struct Followed<S: EntrySink> {
    /// The subscriber with what it held, or `None` if the run did not begin.
    pub(crate) subscriber: Option<Subscriber>,
    /// `Ok` if it ended well, otherwise its fault.
    pub(crate) ended: Result<(), Fault>,
    /// What names its fault, if something does.
    pub(crate) why: Option<FollowFault>,
    /// What it heard.
    pub(crate) account: FollowAccount,
    /// The sink.
    pub(crate) sink: S,
}

impl<S: EntrySink> Followed<S> {
    /// Returns the subscriber of a run that ended well, or the fault that ended it, and the sink.
    pub(crate) fn into_held(self) -> (Result<Subscriber, Fault>, S)
        ensures well { (s : SubscriberState) → OnOk self.ended (self.subscriber ≡ Some s → result.0 ≡ Ok s) }
        ensures fault { IfErr self.ended (λ fault. result.0 ≡ Err fault) }
        ensures only { IfOk result.0 (λ s. (self.subscriber ≡ Some s) × IsOk self.ended) }
        ensures sink { result.1 ≡ self.sink }
    {
        let Followed {
            subscriber,
            ended,
            why: _,
            account: _,
            sink,
        } = self;
        match (subscriber, ended) {
            (Some(subscriber), Ok(())) => (Ok(subscriber), sink),
            (Some(subscriber), Err(fault)) => {
                drop(subscriber);
                (Err(fault), sink)
            }
            (None, Ok(())) => (Err(Fault::Read), sink),
            (None, Err(fault)) => (Err(fault), sink),
        }
    }
}
