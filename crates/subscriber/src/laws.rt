//! The laws of every schedule of a tape and a subscriber. Each function does nothing, and its contract is the law.
ghost use Rattle.std.specs.Prelude.{◌≡◌, ℕ, ◌+◌, ◌≤◌, ◌<◌, ◌↔◌, ◌⊎◌, length, List, IsTrue, None, Some, Result, Err, IfOk, OnErr, false};
ghost use Rattle.reports.specs.declared.message.Message.{Message};
ghost use Rattle.tape_core.specs.declared.entry.Entry.{Entry};
ghost use Rattle.tape_core.specs.declared.refusal.Refusal.{Refusal};
ghost use Rattle.tape_core.specs.declared.refusal.Refusal.TheVariants.{OutOfMemory};
ghost use Rattle.tape_core.specs.Tape.{TapeState, Answers, IsLegal, refusal, summary_at, participant_summary_at};
ghost use Rattle.tape_frames.specs.declared.packet.Packet.{Packet};
ghost use Rattle.tape_frames.specs.declared.packet.Packet.TheVariants.{Data};
ghost use Rattle.tape_frames.specs.declared.version.Version.{Version};
ghost use Rattle.tape_frames.specs.Sources.{BeginsWith, cut_of};
ghost use Rattle.tape_frames.specs.Spelling.{Spells};
ghost use Rattle.arbitration.specs.declared.line.Line.{Line};
ghost use Rattle.arbitration.specs.declared.taken.Taken.{Taken};
ghost use Rattle.arbitration.specs.Deliveries.{Accepts};
ghost use Rattle.arbitration.specs.Windows.{IsWindow, next_of, ready_entries};
ghost use Rattle.arbitration.specs.Gaps.{IsGap};
ghost use Rattle.subscriber.specs.declared.delivery_fault.DeliveryFault.{DeliveryFault};
ghost use Rattle.subscriber.specs.declared.drain_fault.DrainFault.{DrainFault};
ghost use Rattle.subscriber.specs.declared.drain_fault.Stop.TheVariants.{OtherSummary};
ghost use Rattle.subscriber.specs.Subscribers.{SubscriberState, subscriber_after, subscriber_after_entry, own_entry, has_gap, NextIsOwn};
ghost use Rattle.subscriber.specs.Drains.{BringsHeld, Delivers, RefusesDelivery, DrainsAll, DrainStops, OwnFor, IsHonestStop};
ghost use Rattle.tape_core.specs.Answers.{tape_after};
ghost use Rattle.subscriber.specs.Schedules.{World, Event, Comes, Drains, world_after, held_prefix, LeadsTo, EndsIn, IsCut};
ghost use Rattle.subscriber.specs.Schedules.{announced_by, IsSchedule, HasNoRestart, Brings, run};

/// What holds after every schedule of a tape and a subscriber. The clauses up to `gap_filled` are about an honest feed, whose
/// packets are cut from the tape; those from `legal` on hold whatever comes; those from `admits` on tie the events to the
/// calls.
pub fn schedule()
    // The tape that is sent is legal.
    ensures tape { (events : List Event) (w : World) → LeadsTo events w → IsLegal w.tape }
    // The entries held are a prefix of it, with that prefix's summaries.
    ensures prefix { (events : List Event) (w : World) → LeadsTo events w → BeginsWith w.subscriber.tape.entries w.tape.entries }
    ensures summaries { (events : List Event) (w : World) → LeadsTo events w → (symbol : List ℕ)
        → summary_at w.subscriber.tape symbol ≡ summary_at (held_prefix w) symbol }
    ensures own_summaries { (events : List Event) (w : World) → LeadsTo events w → (symbol : List ℕ) (who : ℕ)
        → participant_summary_at w.subscriber.tape symbol who ≡ participant_summary_at (held_prefix w) symbol who }
    // The gap is open if and only if more was announced since the last restart than is held; otherwise all that was announced
    // is held.
    ensures announced { (events : List Event) (w : World) → LeadsTo events w → w.subscriber.window.announced ≡ announced_by 0 events }
    ensures gap { (events : List Event) (w : World) → LeadsTo events w
        → (IsTrue (has_gap w.subscriber) ↔ (length w.subscriber.tape.entries < announced_by 0 events)) }
    ensures no_more { (events : List Event) (w : World) → LeadsTo events w → length w.subscriber.tape.entries ≤ announced_by 0 events }
    ensures no_gap { (events : List Event) (w : World) → LeadsTo events w → has_gap w.subscriber ≡ false
        → length w.subscriber.tape.entries ≡ announced_by 0 events }
    // A packet cut from the tape is taken, and its bytes are never refused.
    ensures accepted { (events : List Event) (w : World) → LeadsTo events w → (packet : Packet) → IsCut w packet
        → Accepts w.subscriber.window w.subscriber.tape.entries packet }
    ensures never_refused { (events : List Event) (w : World) → LeadsTo events w → (packet : Packet) → IsCut w packet
        → (bytes : List ℕ) → Spells bytes packet → (fault : DeliveryFault) → ¬ (RefusesDelivery w.subscriber bytes fault) }
    // The subscriber has not failed, and its own tape makes the next ready entry from that entry's message, so a drain stops
    // only out of memory or at its own limit.
    ensures running { (events : List Event) (w : World) → LeadsTo events w → w.subscriber.failed ≡ false }
    ensures own { (events : List Event) (w : World) → LeadsTo events w → NextIsOwn w.subscriber }
    ensures stops { (events : List Event) (w : World) → LeadsTo events w → (fault : DrainFault) (after : SubscriberState)
        → DrainStops fault w.subscriber after → IsHonestStop fault.why after }
    ensures drains { (events : List Event) (w : World) → LeadsTo events w
        → (next_of (subscriber_after (length (ready_entries w.subscriber.window.slots)) w.subscriber).window ≡ None)
        ⊎ (length (subscriber_after (length (ready_entries w.subscriber.window.slots)) w.subscriber).tape.entries ≡ w.limit) }
    // After a drain that is Ok, the first missing number is the number held plus 1.
    ensures gap_next { (events : List Event) (w : World) → LeadsTo events w → (drained : ℕ) (after : SubscriberState) → DrainsAll drained w.subscriber after
        → (from count : ℕ) → IsGap after.window from count → from ≡ length after.tape.entries + 1 }
    // Once packets with each missing number have been taken after that and a later drain is Ok, the range is held.
    ensures gap_filled { (events : List Event) (w : World) → LeadsTo events w → (drained : ℕ) (after : SubscriberState) → DrainsAll drained w.subscriber after
        → (from count : ℕ) → IsGap after.window from count → (more : List Event) → IsSchedule (record w { subscriber = after }) more → HasNoRestart more
        → ((n : ℕ) → from ≤ n → n < from + count → Brings n more)
        → (later : ℕ) (last : SubscriberState) → DrainsAll later (run (record w { subscriber = after }) more).subscriber last
        → from + count ≤ length last.tape.entries + 1 }
    // Whatever comes, the entries held are a legal tape.
    ensures legal { (events : List Event) (w : World) → EndsIn events w → IsLegal w.subscriber.tape }
    // The subscriber fails if and only if its own entry is not the feed's; a drain returns `OtherSummary` for that and nothing
    // else.
    ensures other { (s : SubscriberState) (e : Entry) → s.failed ≡ false → refusal s.tape e.message ≡ None
        → (IsTrue (subscriber_after_entry (Some e) s).failed ↔ ¬ (own_entry s e.message ≡ e)) }
    ensures other_summary { (fault : DrainFault) (s after : SubscriberState) → DrainStops fault s after → s.failed ≡ false
        → ((fault.why ≡ OtherSummary) ↔ ¬ (OwnFor fault.drained s)) }
    ensures runs { (n : ℕ) (s after : SubscriberState) → DrainsAll n s after → after.failed ≡ false }
    ensures fails { (fault : DrainFault) (s after : SubscriberState) → DrainStops fault s after → s.failed ≡ false
        → (IsTrue after.failed ↔ (fault.why ≡ OtherSummary)) }
    // After a drain that is Ok, nothing is ready.
    ensures nothing_ready { (n : ℕ) (s after : SubscriberState) → DrainsAll n s after → next_of after.window ≡ None }
    // A message that a tape answers is the event of that message, unless memory runs out: then nothing changes.
    ensures admits { (t after : TapeState) (m : Message) (answer : Result Entry Refusal) → Answers t m answer after
        → (after ≡ tape_after t m) ⊎ ((answer ≡ Err OutOfMemory) × (after ≡ t)) }
    // The packet that `cut` returns from the tape's entries, in either version, is one that may come.
    ensures cut { (w : World) (version : Version) (from : ℕ)
        → IsCut w (Data w.session (record { version = version; entries = cut_of version w.tape.entries from })) }
    // Taking bytes is the event of the packet that they spell.
    ensures comes { (w : World) (line : Line) (packet : Packet) (bytes : List ℕ) (taken : Taken) (after : SubscriberState) → Spells bytes packet
        → Delivers line bytes taken w.subscriber after → world_after w (Comes line packet) ≡ record w { subscriber = after } }
    // A drain, however it ends, is the event of as many entries.
    ensures drained { (w : World) (n : ℕ) (after : SubscriberState) → DrainsAll n w.subscriber after
        → world_after w (Drains n) ≡ record w { subscriber = after } }
    ensures stopped { (w : World) (fault : DrainFault) (after : SubscriberState) → DrainStops fault w.subscriber after
        → world_after w (Drains fault.drained) ≡ record w { subscriber = after } }
{}

/// A packet whose entries are all held changes nothing, whichever line it comes by and whatever its delivery returns.
pub fn held_again()
    ensures idle { (s : SubscriberState) → s.window.base ≡ length s.tape.entries → IsWindow s.window → (packet : Packet) → BringsHeld s packet
        → (bytes : List ℕ) → Spells bytes packet → (line : Line) (answer : Result Taken DeliveryFault) (after : SubscriberState)
        → IfOk answer (λ taken. Delivers line bytes taken s after) → OnErr answer (after ≡ s) → after ≡ s }
{}
