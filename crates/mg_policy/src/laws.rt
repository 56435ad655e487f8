//! Laws of the input policies: each function does nothing, and its contract is the law.
ghost use Rattle.std.specs.Prelude.{◌≡◌, ◌+◌, ◌<◌, ℕ, List, length, map, drop};
ghost use Rattle.std.specs.List.{AllZip};
ghost use Rattle.mg_value.specs.Payload.{Plain};
ghost use Rattle.mg_value.specs.declared.policy.Policy.{Policy};
ghost use Rattle.mg_settled.specs.Prefix.{StreamPrefix};
ghost use Rattle.mg_settled.specs.Extension.{AreExtendedBy};
ghost use Rattle.mg_settled.specs.Settled.{settled_sets, reach};
ghost use Rattle.mg_settled.specs.Left.{after_sets};
ghost use Rattle.mg_stream.specs.Queue.{Waiting, StandsFor};
ghost use Rattle.mg_policy.specs.Inbox.{rests, Tells, StandAfter};
ghost use Rattle.mg_policy.specs.declared.readiness.Readiness.{Readiness};

/// At most one readiness fits what waits, so the one that is answered is the one that fits.
pub fn one_readiness_fits()
    ensures { (policy : Policy) (a b : Readiness) (qs : List (Waiting Plain)) → Tells policy a qs → Tells policy b qs → a ≡ b }
{}

/// The settled sets of what waits are the settled sets of the whole prefixes that aren't claimed. So the next set is the first
/// of these. What waits reaches as far as the prefixes.
pub fn what_waits_is_not_claimed()
    ensures sets { (policy : Policy) (k : ℕ) (qs : List (Waiting Plain)) (ss : List (StreamPrefix Plain))
        → StandAfter policy k qs ss → settled_sets policy (rests qs) ≡ drop k (settled_sets policy ss) }
    ensures reach { (policy : Policy) (k : ℕ) (qs : List (Waiting Plain)) (ss : List (StreamPrefix Plain))
        → StandAfter policy k qs ss → reach policy (rests qs) ≡ reach policy ss }
{}

/// Packets arrive: the queues now stand for extended prefixes, with as many packets gone as before. Then as many sets are
/// claimed as before.
pub fn arrivals_keep_what_is_claimed()
    ensures { (policy : Policy) (k : ℕ) (qs rs : List (Waiting Plain)) (ss ts : List (StreamPrefix Plain))
        → StandAfter policy k qs ss → AllZip StandsFor rs ts → AreExtendedBy ss ts → map (λ r. r.gone) rs ≡ map (λ q. q.gone) qs
        → StandAfter policy k rs ts }
{}

/// If the packets of the next set leave the queues, one more set is claimed.
pub fn a_claim_counts()
    ensures { (policy : Policy) (k : ℕ) (qs rs : List (Waiting Plain)) (ss : List (StreamPrefix Plain))
        → StandAfter policy k qs ss → AllZip StandsFor rs ss → 0 < length (settled_sets policy (rests qs))
        → rests rs ≡ after_sets policy 1 (rests qs) → StandAfter policy (k + 1) rs ss }
{}
