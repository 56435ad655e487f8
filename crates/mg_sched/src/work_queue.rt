ghost use Rattle.std.specs.Prelude.{◌≡◌, ◌≢◌, ◌<◌, ◌≤◌, ◌++◌, [], ◌∷◌, length, take, drop, map, All, IsSomeAnd, IfSome, IfNone, IfOk, option_map, slice_get};
ghost use Rattle.std.specs.List.{filter_map};
ghost use Rattle.mg_node.specs.Views.{WorkView};
ghost use Rattle.mg_node.specs.Leaving.{handed_told};
ghost use Rattle.mg_sched.specs.GivesBack.{on_work_queue};
ghost use Rattle.mg_sched.specs.Code.WorkQueues.{TakesFrom};

use mg_calc::NodeCalculator;
use mg_node::Work;
use std::alloc::{AllocError, Global};
use std::marker::Model;

/// The works of a node that are claimed and not performed. At most `room` works may lie here.
#[derive(Drop)]
pub struct WorkQueue<C: NodeCalculator> {
    room: u32,
    works: Vec<Work<C>>,
}

impl<C: NodeCalculator> Model for WorkQueue<C> {
    ghost use Rattle.std.specs.Prelude.{◌≤◌, vec_capacity};
    ghost use Rattle.mg_sched.specs.Views.{WorkQueueView};
    ghost use Rattle.mg_sched.specs.Codes.{work_queue_code};

    ghost Value = { WorkQueueView };

    ghost coded = { work_queue_code };

    ghost view = { λ d. record { room = d.room; works = d.works.items } };

    ghost invariant = { λ d. d.room ≤ vec_capacity d.works };
}

/// Returns the place of the work that has this number.
fn place_of<C: NodeCalculator>(works: &[Work<C>], number: u64) -> Option<usize>
    ensures found { IfSome result (λ place. IsSomeAnd (slice_get works.now place) (λ w. w.number ≡ number)) }
    ensures none { IfNone result (All (λ w. w.number ≢ number) works.now) }
{
    for place in 0..works.len() {
        if works[place].number() == number {
            return Some(place);
        }
    }
    None
}

// Returns the calculator of a work, if it is user-supplied.
fn handed_of<C: NodeCalculator>(work: Work<C>) -> Option<C>
    ensures { option_map C.told result ≡ handed_told work.context.told }
{
    work.into_calculator()
}

// Returns the first user-supplied calculator among those of the works.
fn first_of<C: NodeCalculator>(works: Vec<Work<C>>) -> Option<C>
    ensures { option_map C.told result ≡ slice_get (filter_map handed_told (map (λ (w : WorkView). w.context.told) works.items)) 0 }
{
    for work in works {
        if let Some(calculator) = handed_of(work) {
            return Some(calculator);
        }
    }
    None
}

impl<C: NodeCalculator> WorkQueue<C> {
    /// Returns an empty work queue with room for `room` works.
    pub(crate) fn new(alloc: Global, room: u32) -> Result<WorkQueue<C>, AllocError>
        ensures { IfOk result (λ d. d ≡ record { room = room; works = [] }) }
    {
        let works = Vec::with_capacity(alloc, room as usize)?;
        Ok(WorkQueue { room, works })
    }

    /// Lays a work at the end of the queue.
    pub(crate) fn put(&mut self, work: Work<C>)
        requires { length self.old.works < self.old.room }
        ensures { self.new ≡ record self.old { works = self.old.works ++ work ∷ [] } }
    {
        self.works.push_reserved(work);
    }

    /// Returns the number of the first work, if there is one.
    pub(crate) fn first(&self) -> Option<u64>
        ensures some { IfSome result (λ number. IsSomeAnd (slice_get self.now.works 0) (λ w. w.number ≡ number)) }
        ensures none { IfNone result (self.now.works ≡ []) }
    {
        let work = self.works.first()?;
        Some(work.number())
    }

    /// Takes the work that has this number, and returns it with the place where it lay.
    pub(crate) fn take(&mut self, number: u64) -> Option<(usize, Work<C>)>
        ensures taken { IfSome result (λ t. TakesFrom number t.0 t.1 self.old self.new) }
        ensures none { IfNone result (All (λ w. w.number ≢ number) self.old.works) }
        ensures unchanged { IfNone result (self.new ≡ self.old) }
    {
        let place = place_of(&self.works, number)?;
        Some((place, self.works.remove(place)))
    }

    /// Takes the last work, if there is one.
    pub(crate) fn take_last(&mut self) -> Option<Work<C>>
        ensures taken { IfSome result (λ w. self.old.works ≡ self.new.works ++ w ∷ []) }
        ensures room { self.new.room ≡ self.old.room }
        ensures none { IfNone result ((self.old.works ≡ []) × (self.new ≡ self.old)) }
    {
        self.works.pop()
    }

    /// Lays a work back at the place where it lay.
    pub(crate) fn put_back(&mut self, place: usize, work: Work<C>)
        requires room { length self.old.works < self.old.room }
        requires place { place ≤ length self.old.works }
        ensures { self.new ≡ record self.old { works = take place self.old.works ++ work ∷ drop place self.old.works } }
    {
        let Ok(()) = self.works.insert(place, work) else {
            unreachable!()
        };
    }

    /// Returns the first user-supplied calculator among those of the works that lie here. The works are dropped and not performed.
    pub(crate) fn into_calculator(self) -> Option<C>
        ensures { option_map C.told result ≡ on_work_queue self }
    {
        let WorkQueue { works, .. } = self;
        first_of(works)
    }
}
