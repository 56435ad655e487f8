//! Laws of loops over lists: each function does nothing, and its contract is the law.
ghost use Rattle.std.specs.Prelude.{◌≡◌, ℕ, ◌<◌, Bool, true, false, List, [], ◌∷◌, map, filter_map, None, Some, slice_get};
ghost use Rattle.mg_time.specs.Time.{IsAllowed, place_of};
ghost use Rattle.mg_value.specs.Payload.{Plain};
ghost use Rattle.mg_value.specs.Packet.{Stamped};
ghost use Rattle.mg_value.specs.declared.policy.Policy.TheVariants.{Default};
ghost use Rattle.mg_settled.specs.Prefix.{StreamPrefix};
ghost use Rattle.mg_settled.specs.Settled.{TimedSet, settled_sets};
ghost use Rattle.mg_calc.specs.declared.plan_node.PlanNode.{PlanNode};
ghost use Rattle.mg_calc.specs.declared.law.Law.TheVariants.{EndLoop};
ghost use Rattle.mg_calc.specs.Values.{place_at, number_of};
ghost use Rattle.mg_calc.specs.Equations.{Job, IsJob, IsSolution, stream_of, inputs_of, outcome_of};
ghost use Rattle.mg_batch.specs.Loop.{IsOf, IsLoop, RunThrough, list_of_images, list_of_some_images};

/// A loop is a BeginLoop, any number of nodes of maps, Filter and Pass one after the other, and an EndLoop. In the solution of
/// a valid plan, each list that enters a loop comes out as the list of its items' images, in order. The list comes out at exactly its
/// own time, and an empty list as an empty one. Nothing else comes out. The premise is that none of these nodes fails, and that none of
/// their streams is stalled.
pub fn lists_come_out_as_lists_of_images()
    ensures chain { (job : Job) (streams : List (StreamPrefix Plain)) (clones lists out : ℕ) (begin end : PlanNode) (inner : List PlanNode)
        → IsJob job → IsSolution job streams → IsLoop job.plan clones false false lists begin inner end out → RunThrough job streams (begin ∷ end ∷ inner)
        → (stream_of streams out).packets ≡ map (list_of_images inner) (stream_of streams lists).packets }
    ensures one { (job : Job) (streams : List (StreamPrefix Plain)) (clones lists out : ℕ) (begin node end : PlanNode)
        → IsJob job → IsSolution job streams → IsLoop job.plan clones false false lists begin (node ∷ []) end out → RunThrough job streams (begin ∷ end ∷ node ∷ [])
        → (stream_of streams out).packets ≡ map (list_of_images (node ∷ [])) (stream_of streams lists).packets }
{}

/// A loop whose EndLoop gives a bound in place of an empty list: each list that enters it comes out as the list of its items' images, in
/// order and at its own time, unless there are no images. Then nothing comes out for it. Nothing else comes out either: not where the
/// BeginLoop ends a batch at a set without a list. The premise is that none of these nodes fails, and that none of their streams is
/// stalled.
pub fn lists_of_some_images_come_out()
    ensures { (job : Job) (streams : List (StreamPrefix Plain)) (clones lists out : ℕ) (always_end : Bool) (begin end : PlanNode) (inner : List PlanNode)
        → IsJob job → IsSolution job streams → IsLoop job.plan clones always_end true lists begin inner end out → RunThrough job streams (begin ∷ end ∷ inner)
        → (stream_of streams out).packets ≡ filter_map (list_of_some_images inner) (stream_of streams lists).packets }
{}

/// The end of each batch settles the output of an EndLoop, in both of its forms: if a settled set of the node has a packet at BATCH_END,
/// the output's bound is above the time that this packet tells. So whoever reads the output needn't wait for that time, even if no list
/// stands there. The premise is that the node doesn't fail, and that a packet may carry that time. Streams may be stalled.
pub fn the_end_of_a_batch_settles_its_time()
    ensures { (job : Job) (streams : List (StreamPrefix Plain)) (node : PlanNode) (empty_as_bound : Bool) (out k : ℕ) (set : TimedSet Plain) (told : Stamped Plain)
        → IsJob job → IsSolution job streams → IsOf job.plan node → node.law ≡ EndLoop empty_as_bound → node.outputs ≡ out ∷ [] → (outcome_of job streams node).fault ≡ None
        → slice_get (settled_sets Default (inputs_of streams node)) k ≡ Some set → place_at set.set 0 ≡ Some told → IsAllowed (place_of (number_of told.value))
        → place_of (number_of told.value) < (stream_of streams out).bound }
{}
