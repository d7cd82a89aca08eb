// The order of a scope's symbols (materialize.rs): `free_vars`, `body_schedule`, `neighbours`, `schedule_order`.
// In order: the scope of an order; what a scheduler (scheduler.rt) does: tests of a symbol; the neighbours of a symbol;
// a symbol after its neighbours; the cycle of free lists, body order and neighbours. Then a scope's schedule. A body's
// order (`body_schedule`) is walked for its outsiders alone: where a schedule lists the symbol that was visited, it
// lists the outsiders that the symbol needs. What nests: `visit` and `run` once a symbol, with no array. `across` (1
// KB) and `free` (0.5 KB) open arrays: they are called only for a symbol in a deeper scope whose free list is not
// stored.
#![tactic(auto)]

mod scheduler;

ghost use Rattle.std.specs.Prelude.{◌≡◌, false, [], ◌∷◌, ◌++◌, ◌<◌, get_or, MatchOption};
ghost use Rattle.model.specs.Schedule.{each, outsiders, free_vars};
ghost use Rattle.laws.specs.Members.{Under};
ghost use Rattle.graph.specs.Tests.{Tests};
ghost use Rattle.outsiders.specs.Outsiders.{Held, Listed};
ghost use Rattle.free_lists.specs.FreeLists.{Stocked};
ghost use Rattle.schedule.specs.Schedule.{scope_of, passed, stops, step_of, visit_of, needs_of, graph_in};
ghost use Rattle.schedule.specs.Schedule.{Near, LiesDeeper, Lent, Walked, Scheduled};

use arrayvec::ArrayVec;
use graph::Graph;
use outsiders::Entry;
use record::Forest;
use scheduler::{Order, Scheduler};
use scopes::Rel;

// The scope that an order is seen from.
fn scope(o: Order) -> usize
    ensures { result ≡ scope_of o }
{
    match o {
        Order::Body(cs) => cs,
        Order::Schedule(sc) => sc,
    }
}

impl<'a> Scheduler<'a> {
    // ---- tests of a symbol

    // Body order passes over arguments and outsiders.
    #[tactic(auto, unfolding(crate::specs::Schedule::passed))]
    fn is_passed(&self, d: usize) -> bool
        requires d_lt_symbols { d < self.now.graph.symbols }
        ensures { Tests self.now.graph (λ h. passed h self.now.order d) result }
    {
        match self.order {
            Order::Body(cs) => self.graph.is_arg(d)
                || graph::is_outside(self.graph.relation(d, cs)),
            Order::Schedule(_) => false,
        }
    }

    // In a schedule an argument has no neighbours.
    #[tactic(auto, unfolding(crate::specs::Schedule::stops))]
    fn is_end(&self, s: usize) -> bool
        requires s_lt_symbols { s < self.now.graph.symbols }
        ensures { Tests self.now.graph (λ h. stops h self.now.order s) result }
    {
        match self.order {
            Order::Body(_) => false,
            Order::Schedule(_) => self.graph.is_arg(s),
        }
    }

    // ---- the neighbours of a symbol

    // The neighbours of s: its children, or its free list, if that is stored.
    fn neighbours(&self, s: usize) -> Option<&'a [u32]>
        requires s_lt_symbols { s < self.now.graph.symbols }
        ensures { MatchOption result (LiesDeeper self.now s) (λ near. Near self.now s near.now) }
    {
        if self.is_end(s) {
            return Some(&[]);
        }
        match self.graph.relation(s, scope(self.order)) {
            Rel::Local => Some(graph::children(self.graph.words, key::load(self.graph.words, s))),
            Rel::Deeper => free_lists::stored(self.graph.words, s),
            Rel::Outside => Some(&[]),
        }
    }

    // ---- a symbol after its neighbours

    // With the outsiders that symbol s of a body in scope `cs` needs: those among its children, or those in its free
    // list, `near`.
    fn needs<T: Entry>(&self, cs: usize, s: usize, near: &[T], list: &mut ArrayVec<u16, 512>)
        requires order_value { self.now.order ≡ Order.Body cs }
        requires s_lt_symbols { s < self.now.graph.symbols }
        requires near { Near self.now s (T.numbers near.now) }
        requires held { Held self.now.graph.symbols list.old.items }
        ensures { Listed self.now.forest.now self.now.graph (λ h. outsiders h cs (needs_of h cs s)) list.old.items
            list.new.items }
    {
        match self.graph.relation(s, cs) {
            Rel::Local => outsiders::offer_kids(self.forest, &self.graph, cs, s, list),
            Rel::Deeper => outsiders::offer_run(&self.graph, cs, near, list),
            Rel::Outside => {}
        }
    }

    // Symbol s after those visited, its neighbours among them.
    // `seen` and `list` stay parameters: what holds of the two names the scheduler too, so a struct of them says no
    // more.
    fn put<T: Entry>(
        &self,
        s: usize,
        near: &[T],
        seen: &mut [bool; 512],
        list: &mut ArrayVec<u16, 512>,
    )
        requires s_lt_symbols { s < self.now.graph.symbols }
        requires near { Near self.now s (T.numbers near.now) }
        requires lent { Lent self.now seen.old list.old.items }
        requires s_value { get_or seen.old s false ≡ false }
        ensures { Walked self.now (λ _ vs. vs ++ (s ∷ [])) seen.old list.old.items seen.new list.new.items }
    {
        seen[s] = true;
        match self.order {
            Order::Body(cs) => self.needs(cs, s, near, list),
            Order::Schedule(_) => list.push(s as u16),
        }
    }

    // ---- free lists, body order and neighbours: each calls the next on the same symbol, or `visit` on lower ones

    // Symbol s, which was not seen, after its neighbours, unless it is passed over.
    #[cycle(scheduling)]
    fn visit(&self, s: usize, seen: &mut [bool; 512], list: &mut ArrayVec<u16, 512>)
        requires s_lt_symbols { s < self.now.graph.symbols }
        requires lent { Lent self.now seen.old list.old.items }
        requires s_value { get_or seen.old s false ≡ false }
        ensures { Walked self.now (λ h. step_of h self.now.order s) seen.old list.old.items seen.new list.new.items }
    {
        if self.is_passed(s) {
            return;
        }
        match self.neighbours(s) {
            Some(near) => {
                self.run(s, near, seen, list);
                self.put(s, near, seen, list);
            }
            None => self.across(s, seen, list),
        }
    }

    // The symbols of a run, all below `top`, each visited.
    #[cycle(scheduling)]
    fn run(&self, top: usize, near: &[u32], seen: &mut [bool; 512], list: &mut ArrayVec<u16, 512>)
        requires top_lt_symbols { (top < self.now.graph.symbols) × Under top near.now }
        requires lent { Lent self.now seen.old list.old.items }
        ensures { Walked self.now (λ h. each (step_of h self.now.order) near.now) seen.old list.old.items
            seen.new list.new.items }
    {
        for &entry in near {
            let d = entry as usize;
            // a symbol that was seen needs no call
            if !seen[d] {
                self.visit(d, seen, list);
            }
        }
    }

    // Symbol s, whose free list is its neighbours' and is not stored, after each of these.
    #[cycle(scheduling)]
    fn across(&self, s: usize, seen: &mut [bool; 512], list: &mut ArrayVec<u16, 512>)
        requires s_lt_symbols { s < self.now.graph.symbols }
        requires deeper { LiesDeeper self.now s }
        requires lent { Lent self.now seen.old list.old.items }
        requires s_value { get_or seen.old s false ≡ false }
        ensures { Walked self.now (λ h. visit_of h self.now.order s) seen.old list.old.items seen.new list.new.items }
    {
        let mut own = ArrayVec::new();
        self.free(s, &mut own);
        let near = own.as_slice();
        // `run` takes no such entries: the functions of a cycle have the same type parameters
        for &entry in near {
            let d = usize::from(entry);
            if !seen[d] {
                self.visit(d, seen, list);
            }
        }
        self.put(s, near, seen, list);
    }

    // What symbol c refers to outside its scope (`free_vars`), into an empty list. The body is walked once: each
    // symbol's outsiders are listed when it is visited.
    // Rules out: a symbol twice; the eager children of an IF before its arms.
    #[cycle(scheduling)]
    fn free(&self, c: usize, list: &mut ArrayVec<u16, 512>)
        requires c_lt_symbols { c < self.now.graph.symbols }
        requires empty { list.old.items ≡ [] }
        ensures { list.new.items ≡ free_vars (graph_in self.now) c }
    {
        let mut seen = [false; 512];
        let y = key::load(self.graph.words, c);
        let cs = y.scope as usize;
        let body = Scheduler {
            forest: self.forest,
            graph: self.graph,
            order: Order::Body(cs),
        };
        body.run(c, graph::children(self.graph.words, y), &mut seen, list);
        outsiders::offer_kids(self.forest, &self.graph, cs, c, list);
    }
}

// ---- a scope's schedule

// The symbols that scope `sc` needs for `root`, each after its neighbours (`schedule_order`): what `order` is then.
// Rules out: a symbol before one that it needs; what stands inside a lambda in place of what the lambda needs.
pub fn schedule(forest: &Forest, g: &Graph, root: usize, sc: usize, order: &mut ArrayVec<u16, 512>)
    requires stocked { Stocked forest.now g.now }
    requires root_lt_symbols { (root < g.now.symbols) × (sc < g.now.scopes) }
    ensures { Scheduled forest.now g.now root sc order.new.items }
{
    order.clear();
    let mut seen = [false; 512];
    let scheduler = Scheduler {
        forest,
        graph: *g,
        order: Order::Schedule(sc),
    };
    scheduler.visit(root, &mut seen, order)
}
