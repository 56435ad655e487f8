//! Laws of the definitions: each function does nothing, and its contract is the law.
ghost use Rattle.std.specs.Prelude.{◌≡◌, ℕ, ◌+◌, ◌-◌, ◌++◌, slice_index_or, ◌<◌, ◌≤◌, ◌↔◌, List, [], take, drop, length, replicate, map, All, IsTrue, is_some, option_map, slice_get, Option, Some, None, if◌then◌else◌};
ghost use Rattle.std.specs.List.{AllZip, list_any};
ghost use Rattle.std.specs.List.Sorted.{IsStrictlyIncreasing};
ghost use Rattle.mg_time.specs.Time.{pre_stream, done};
ghost use Rattle.mg_value.specs.Payload.{Plain};
ghost use Rattle.mg_value.specs.declared.policy.Policy.{Policy};
ghost use Rattle.mg_value.specs.declared.policy.Policy.TheVariants.{Mux};
ghost use Rattle.mg_value.specs.Packet.{Stamped};
ghost use Rattle.mg_settled.specs.Prefix.{StreamPrefix, IsPrefix, MayFollow, MayAllFollow, empty_prefix, appended, all_appended, raised, closed};
ghost use Rattle.mg_settled.specs.Extension.{IsExtendedBy, AreExtendedBy};
ghost use Rattle.mg_settled.specs.Loopback.{loopback, replies, StandsBehind, IsPast, last_of, behind_first, AreAnswers, GoesOn};
ghost use Rattle.mg_settled.specs.Settled.{low, times_of, all_times, is_among, settled_times, settled_sets, reach, packet_at, port_of, inputs_of, shows, IsBelowBounds};
ghost use Rattle.mg_settled.specs.FirstSet.{first_set_time, chosen_port, is_shown, front_at, from, behind};
ghost use Rattle.mg_settled.specs.Left.{set_times, after_sets, without_first, sums, gone_of, leads, HasLeadingPacket, AreGone, AreLeft};

/// A prefix is extended by itself.
pub fn extension_is_reflexive()
    ensures one { (s : StreamPrefix Plain) → IsExtendedBy s s }
    ensures list { (ss : List (StreamPrefix Plain)) → AreExtendedBy ss ss }
{}

/// What extends an extension extends the prefix.
pub fn extension_is_transitive()
    ensures one { (s t u : StreamPrefix Plain) → IsExtendedBy s t → IsExtendedBy t u → IsExtendedBy s u }
    ensures list { (ss tt uu : List (StreamPrefix Plain)) → AreExtendedBy ss tt → AreExtendedBy tt uu → AreExtendedBy ss uu }
{}

/// Prefixes that extend each other are equal.
pub fn extension_is_antisymmetric()
    ensures one { (s t : StreamPrefix Plain) → IsExtendedBy s t → IsExtendedBy t s → s ≡ t }
    ensures list { (ss tt : List (StreamPrefix Plain)) → AreExtendedBy ss tt → AreExtendedBy tt ss → ss ≡ tt }
{}

/// A prefix whose stream has ended is extended by itself alone.
pub fn an_ended_prefix_stays()
    ensures one { (s t : StreamPrefix Plain) → s.bound ≡ done → IsPrefix t → IsExtendedBy s t → s ≡ t }
    ensures list { (ss tt : List (StreamPrefix Plain)) → All (λ s. s.bound ≡ done) ss → All IsPrefix tt → AreExtendedBy ss tt → ss ≡ tt }
{}

/// A stream about which nothing is known is a prefix. A prefix stays a prefix with packets that may follow it, with a higher
/// bound, or closed.
pub fn steps_make_prefixes()
    ensures empty { IsPrefix (empty_prefix {X = Plain}) }
    ensures appended { (s : StreamPrefix Plain) (p : Stamped Plain) → IsPrefix s → MayFollow s p → IsPrefix (appended s p) }
    ensures all_appended { (s : StreamPrefix Plain) (ps : List (Stamped Plain)) → IsPrefix s → MayAllFollow s ps → IsPrefix (all_appended s ps) }
    ensures raised { (s : StreamPrefix Plain) (b : ℕ) → IsPrefix s → b ≤ done → IsPrefix (raised s b) }
    ensures closed { (s : StreamPrefix Plain) → IsPrefix s → IsPrefix (closed s) }
{}

/// Packets that may follow, a higher bound and a close each extend a prefix. The packets go after its own, in order.
pub fn steps_extend()
    ensures appended { (s : StreamPrefix Plain) (p : Stamped Plain) → MayFollow s p → IsExtendedBy s (appended s p) }
    ensures all_appended { (s : StreamPrefix Plain) (ps : List (Stamped Plain)) → MayAllFollow s ps → IsExtendedBy s (all_appended s ps) }
    ensures behind { (s : StreamPrefix Plain) (ps : List (Stamped Plain)) → (all_appended s ps).packets ≡ s.packets ++ ps }
    ensures raised { (s : StreamPrefix Plain) (b : ℕ) → IsExtendedBy s (raised s b) }
    ensures closed { (s : StreamPrefix Plain) → IsPrefix s → IsExtendedBy s (closed s) }
{}

/// The times of a prefix ascend, and stay below its bound.
pub fn times_ascend()
    ensures ascend { (s : StreamPrefix Plain) → IsPrefix s → IsStrictlyIncreasing (times_of s.packets) }
    ensures below { (s : StreamPrefix Plain) → IsPrefix s → All (λ p. p.at < s.bound) s.packets }
{}

/// By default the settled times are those at which a packet stands below the least bound.
pub fn settled_times_are_below_low()
    ensures { (ss : List (StreamPrefix Plain)) (t : ℕ)
        → IsTrue (is_among (settled_times ss) t) ↔ ((t < low ss) × IsTrue (is_among (all_times ss) t)) }
{}

/// The inputs of a node are prefixes if the streams are prefixes, one per port. They are extended if the streams are.
pub fn inputs_follow_their_streams()
    ensures prefixes { (ss : List (StreamPrefix Plain)) (ports : List ℕ) → All IsPrefix ss → All IsPrefix (inputs_of ss ports) }
    ensures extended { (ss tt : List (StreamPrefix Plain)) (ports : List ℕ) → AreExtendedBy ss tt → AreExtendedBy (inputs_of ss ports) (inputs_of tt ports) }
    ensures places { (ss : List (StreamPrefix Plain)) (ports : List ℕ) → length (inputs_of ss ports) ≡ length ports }
{}

/// The settled sets come at distinct times, ascending, each below the bounds that its policy asks for and below the
/// reach. Each has one place per port, and none is empty.
pub fn settled_sets_ascend()
    ensures ascend { (policy : Policy) (ss : List (StreamPrefix Plain)) → All IsPrefix ss → IsStrictlyIncreasing (set_times policy ss) }
    ensures bounds { (policy : Policy) (ss : List (StreamPrefix Plain)) → All IsPrefix ss → All (λ e. IsBelowBounds policy ss e.at) (settled_sets policy ss) }
    ensures reach { (policy : Policy) (ss : List (StreamPrefix Plain)) → All IsPrefix ss → All (λ e. e.at < reach policy ss) (settled_sets policy ss) }
    ensures places { (policy : Policy) (ss : List (StreamPrefix Plain)) → All (λ e. length e.set ≡ length ss) (settled_sets policy ss) }
    ensures shown { (policy : Policy) (ss : List (StreamPrefix Plain)) → All (λ e. IsTrue (list_any is_some e.set)) (settled_sets policy ss) }
{}

/// Each settled set stands at the time of a packet of a port that leads, and each such packet below the reach has its set.
/// So without packets at these ports there is no set.
pub fn settled_sets_are_of_leading_packets()
    ensures of { (policy : Policy) (ss : List (StreamPrefix Plain)) → All (λ e. HasLeadingPacket policy ss e.at) (settled_sets policy ss) }
    ensures all { (policy : Policy) (ss : List (StreamPrefix Plain)) (t : ℕ) → All IsPrefix ss → HasLeadingPacket policy ss t → t < reach policy ss
        → IsTrue (is_among (set_times policy ss) t) }
    ensures none { (policy : Policy) (ss : List (StreamPrefix Plain))
        → ((i : ℕ) → i < length ss → IsTrue (leads policy (length ss) i) → (port_of ss i).packets ≡ []) → settled_sets policy ss ≡ [] }
{}

/// If prefixes are extended, their settled sets stay. Further settled sets come only after them, at the reach of the shorter
/// prefixes or above. If that reach is the end of all times, no further set comes.
pub fn settled_sets_stay()
    ensures stay { (policy : Policy) (ss tt : List (StreamPrefix Plain)) → AreExtendedBy ss tt
        → take (length (settled_sets policy ss)) (settled_sets policy tt) ≡ settled_sets policy ss }
    ensures further { (policy : Policy) (ss tt : List (StreamPrefix Plain)) → All IsPrefix tt → AreExtendedBy ss tt
        → All (λ e. reach policy ss ≤ e.at) (drop (length (settled_sets policy ss)) (settled_sets policy tt)) }
    ensures end { (policy : Policy) (ss tt : List (StreamPrefix Plain)) → All IsPrefix tt → AreExtendedBy ss tt → reach policy ss ≡ done
        → settled_sets policy tt ≡ settled_sets policy ss }
{}

/// The reach is a bound, and never falls if prefixes are extended.
pub fn the_reach_rises()
    ensures opened { (policy : Policy) (ss : List (StreamPrefix Plain)) → All IsPrefix ss → pre_stream ≤ reach policy ss }
    ensures within { (policy : Policy) (ss : List (StreamPrefix Plain)) → All IsPrefix ss → reach policy ss ≤ done }
    ensures rises { (policy : Policy) (ss tt : List (StreamPrefix Plain)) → All IsPrefix tt → AreExtendedBy ss tt
        → reach policy ss ≤ reach policy tt }
{}

/// When the first settled sets are claimed, the others are the settled sets of what is left, and the reach stays.
pub fn after_sets_leaves_the_others()
    ensures sets { (policy : Policy) (k : ℕ) (ss : List (StreamPrefix Plain)) → All IsPrefix ss
        → settled_sets policy (after_sets policy k ss) ≡ drop k (settled_sets policy ss) }
    ensures reach { (policy : Policy) (k : ℕ) (ss : List (StreamPrefix Plain)) → All IsPrefix ss
        → reach policy (after_sets policy k ss) ≡ reach policy ss }
{}

/// What is left has the other settled sets and the same reach, also if it is given by how many packets are gone.
pub fn what_is_left_has_the_others()
    ensures sets { (policy : Policy) (k : ℕ) (ss : List (StreamPrefix Plain)) (gone : List ℕ) → All IsPrefix ss → AreGone policy k ss gone
        → settled_sets policy (without_first gone ss) ≡ drop k (settled_sets policy ss) }
    ensures reach { (policy : Policy) (k : ℕ) (ss : List (StreamPrefix Plain)) (gone : List ℕ) → All IsPrefix ss → AreGone policy k ss gone
        → reach policy (without_first gone ss) ≡ reach policy ss }
{}

/// The numbers of packets that are gone. Before any claim each number is 0. The numbers stay right if prefixes are extended.
/// After one more claim, numbers are right if they leave of the prefixes what was left before, without its first set.
pub fn what_is_gone_is_kept()
    ensures none { (policy : Policy) (ss : List (StreamPrefix Plain)) → AreGone policy 0 ss (replicate (length ss) 0) }
    ensures extended { (policy : Policy) (k : ℕ) (ss tt : List (StreamPrefix Plain)) (gone : List ℕ) → All IsPrefix ss → AreExtendedBy ss tt
        → AreGone policy k ss gone → AreGone policy k tt gone }
    ensures claimed { (policy : Policy) (k : ℕ) (ss : List (StreamPrefix Plain)) (gone more : List ℕ) → All IsPrefix ss → AreGone policy k ss gone
        → k < length (settled_sets policy ss) → AllZip (λ s n. n ≤ length s.packets) ss more
        → without_first more ss ≡ after_sets policy 1 (without_first gone ss) → AreGone policy (k + 1) ss more }
{}

/// What is left of prefixes are prefixes: when their first settled sets are claimed, without first packets, from a time on, and
/// after a time.
pub fn what_is_left_are_prefixes()
    ensures after_sets { (policy : Policy) (k : ℕ) (ss : List (StreamPrefix Plain)) → All IsPrefix ss → All IsPrefix (after_sets policy k ss) }
    ensures without_first { (ss : List (StreamPrefix Plain)) (gone : List ℕ) → All IsPrefix ss → All IsPrefix (without_first gone ss) }
    ensures from { (t : ℕ) (s : StreamPrefix Plain) → IsPrefix s → IsPrefix (from t s) }
    ensures behind { (t : ℕ) (s : StreamPrefix Plain) → IsPrefix s → IsPrefix (behind t s) }
{}

/// To claim some sets, and then some more of what is left, is to claim all of them together. The numbers of packets that are
/// gone add up.
pub fn claims_add_up()
    ensures after_sets { (policy : Policy) (k j : ℕ) (ss : List (StreamPrefix Plain)) → All IsPrefix ss
        → after_sets policy j (after_sets policy k ss) ≡ after_sets policy (k + j) ss }
    ensures gone { (policy : Policy) (k j : ℕ) (ss : List (StreamPrefix Plain)) (gone more : List ℕ) → All IsPrefix ss
        → AreGone policy k ss gone → AreGone policy j (without_first gone ss) more → AreGone policy (k + j) ss (sums gone more) }
    ensures left { (ss : List (StreamPrefix Plain)) (gone more : List ℕ) → length gone ≡ length ss → length more ≡ length ss
        → without_first more (without_first gone ss) ≡ without_first (sums gone more) ss }
    ensures further { (policy : Policy) (k j : ℕ) (ss us : List (StreamPrefix Plain)) (gone : List ℕ) → All IsPrefix ss
        → AreGone policy k ss gone → AreLeft policy j (without_first gone ss) us → AreGone policy (k + j) ss (gone_of ss us) }
{}

/// A settled set shows at each port what the port has at its time, or nothing, as its policy says.
pub fn settled_sets_show_packets()
    ensures { (policy : Policy) (ss : List (StreamPrefix Plain)) → All IsPrefix ss
        → All (λ e. (i : ℕ) → i < length ss
        → slice_index_or e.set i None ≡ (if shows policy ss e.at i then packet_at e.at (port_of ss i).packets else None)) (settled_sets policy ss) }
{}

/// First packets and bounds tell the first settled set: its time, and which ports it shows. The set that has, at each of these
/// ports, what the port has at the time is the first. Before its time nothing stands at a port that leads. When the set is
/// claimed, what stands after its time is left.
pub fn first_packets_tell_the_first_set()
    ensures time { (policy : Policy) (ss : List (StreamPrefix Plain)) → All IsPrefix ss
        → option_map (λ e. e.at) (slice_get (settled_sets policy ss) 0) ≡ first_set_time policy ss }
    ensures shown { (policy : Policy) (ss : List (StreamPrefix Plain)) (t i : ℕ) → first_set_time policy ss ≡ Some t
        → is_shown policy (length ss) (chosen_port policy ss) i ≡ shows policy ss t i }
    ensures set { (policy : Policy) (ss : List (StreamPrefix Plain)) (t : ℕ) (set : List (Option (Stamped Plain))) → All IsPrefix ss
        → first_set_time policy ss ≡ Some t → length set ≡ length ss
        → ((i : ℕ) → i < length ss → slice_index_or set i None ≡ (if shows policy ss t i then packet_at t (port_of ss i).packets else None))
        → slice_get (settled_sets policy ss) 0 ≡ Some (record { at = t; set = set }) }
    ensures leading { (policy : Policy) (ss : List (StreamPrefix Plain)) (t i : ℕ) → All IsPrefix ss → first_set_time policy ss ≡ Some t
        → i < length ss → IsTrue (leads policy (length ss) i) → from t (port_of ss i) ≡ port_of ss i }
    ensures left { (policy : Policy) (ss : List (StreamPrefix Plain)) (t : ℕ) → All IsPrefix ss → first_set_time policy ss ≡ Some t
        → after_sets policy 1 ss ≡ map (behind t) ss }
{}

/// If all packets before a time are gone, the packet that a prefix has at that time stands first. If that packet is gone too,
/// the rest stands after the time.
pub fn a_packet_stands_first_at_its_time()
    ensures found { (t : ℕ) (s : StreamPrefix Plain) → IsPrefix s → packet_at t s.packets ≡ front_at t (from t s).packets }
    ensures left { (t : ℕ) (s : StreamPrefix Plain) → IsPrefix s
        → (behind t s).packets ≡ (if is_some (packet_at t s.packets) then drop 1 (from t s).packets else (from t s).packets) }
{}

/// Under Mux as many packets of SELECT are gone as sets are claimed.
pub fn a_set_takes_a_packet_of_select()
    ensures { (k : ℕ) (ss : List (StreamPrefix Plain)) (gone : List ℕ) → All IsPrefix ss → AreGone Mux k ss gone
        → slice_index_or gone (length ss - 1) 0 ≡ k }
{}

/// The loopback's output stream is a prefix.
pub fn loopback_is_a_prefix()
    ensures { (main loop : StreamPrefix Plain) → IsPrefix main → IsPrefix (loopback main loop) }
{}

/// What extends the loopback's inputs extends its output stream.
pub fn loopback_follows_its_inputs()
    ensures { (main wider loop more : StreamPrefix Plain) → IsPrefix wider → IsExtendedBy main wider → IsExtendedBy loop more
        → IsExtendedBy (loopback main loop) (loopback wider more) }
{}

/// The loopback's answers: at most one per packet of MAIN. If the inputs are extended, the answers stay, and further answers
/// come only after them. If LOOP alone is extended and as many packets are answered, the output stream stays.
pub fn replies_stay()
    ensures most { (main loop : StreamPrefix Plain) → length (replies main loop) ≤ length main.packets }
    ensures stay { (main wider loop more : StreamPrefix Plain) → IsExtendedBy main wider → IsExtendedBy loop more
        → take (length (replies main loop)) (replies wider more) ≡ replies main loop }
    ensures same { (main loop more : StreamPrefix Plain) → IsExtendedBy loop more
        → length (replies main more) ≡ length (replies main loop) → loopback main more ≡ loopback main loop }
{}

/// If the loopback's inputs are extended, it goes on from where it stood. It answers what is left of MAIN after the packets
/// that were answered. It does so without those packets of LOOP that nobody asks for.
pub fn the_loopback_goes_on()
    ensures behind { (n : ℕ) (main : StreamPrefix Plain) → IsPrefix main → StandsBehind (last_of None n main.packets) (drop n main.packets) }
    ensures further { (main wider loop more left rest : StreamPrefix Plain) (packets : List (Stamped Plain)) (gone : ℕ) → IsPrefix wider
        → IsExtendedBy main wider → IsExtendedBy loop more → IsPast (last_of None (length (replies main loop)) main.packets) loop gone
        → AreAnswers (last_of None (length (replies main loop)) wider.packets) (behind_first (length (replies main loop)) wider) (behind_first gone more) packets left rest
        → GoesOn main wider loop more packets left rest }
{}
