// The rounds of the bit allocation (ISO/IEC 11172-3 C.1.5.2.7) over any fields, whose rules are lent as tables.
#![tactic(auto)]

ghost use Rattle.std.specs.Prelude.{◌≡◌, ◌+◌, ◌*◌, ◌≤◌, ◌<◌, min, get_or};
ghost use Rattle.std.specs.Float.{nan};
ghost use Rattle.allocation_rounds.specs.Rounds.{price, place_in, consider, close_at, round, started, raised_by, taken_by};
ghost use Rattle.allocation_rounds.specs.Lent.{rules_in};
ghost use Rattle.allocation_rounds.specs.Answers.{BestIs, Onward, Finished};
ghost use Rattle.allocation_rounds.specs.Watch.{scanned, Watched, Rewatched};

// A field whose turn it may be, with its mask-to-noise ratio.
#[derive(Clone, Copy)]
pub struct Candidate {
    pub field: usize,
    pub mnr: f64,
}

impl Candidate {
    // The candidate once one field more is considered. The first of equals stays; a NaN is replaced and replaces. The early
    // return compiles to a branch, not to a choice of two values that each field would wait for.
    pub fn consider(found: Option<Candidate>, field: usize, mnr: f64) -> Option<Candidate>
        ensures { result ≡ consider found field mnr }
    {
        if let Some(held) = found {
            if held.mnr <= mnr {
                return Some(held);
            }
        }
        Some(Candidate { field, mnr })
    }
}

// The step that leaves a place of a field: the field is one of 64, and the place has one above it.
#[derive(Clone, Copy)]
struct Step {
    field: usize,
    place: usize,
    ghost in_fields: { field < 64 },
    ghost in_places: { place < 15 },
}

// The rules as tables: how many fields there are, the top place of each, and sixteen ratios and sixteen charges to a field, of its
// places 0 to 15.
// Kept: without a heap the arrays have the largest length and a count beside; each is read by itself (`mnr`, `price`, `update`).
#[derive(Clone, Copy)]
pub struct Tables {
    pub fields: usize,
    pub tops: [u8; 64],
    pub mnrs: [f64; 1024],
    pub charges: [u32; 1024],
}

impl Tables {
    // How many fields are considered: at most 64.
    // Kept: std's `min`: the arrays hold 64 fields, and `fields` is a caller's number.
    fn considered(&self) -> usize
        ensures { result ≡ min self.now.fields 64 }
    {
        self.fields.min(64)
    }

    // The ratio at the place that the step leaves.
    fn mnr(&self, step: Step) -> f64
        ensures { result ≡ get_or self.now.mnrs (16 * step.field + step.place) nan }
    {
        self.mnrs[16 * step.field + step.place]
    }

    // The price of the step: what is charged more at the next place, and nothing where the charges fall.
    fn price(&self, step: Step) -> u32
        ensures { result ≡ price (rules_in self.now) step.field step.place }
    {
        let at = 16 * step.field + step.place;
        self.charges[at + 1].saturating_sub(self.charges[at])
    }
}

// The state of a run, by field: the place at which it stands and whether it is closed; and the bits left.
// Kept: `steps_held` takes the places whole and asks nothing of `closed`; `left` counts bits and is no length of the arrays.
#[derive(Clone, Copy)]
pub struct Run {
    pub places: [u8; 64],
    pub closed: [bool; 64],
    pub left: u32,
}

impl Run {
    // Every field is open at place 0.
    pub fn start(offered: u32) -> Run
        ensures { result ≡ started offered }
    {
        Run {
            places: [0; 64],
            closed: [false; 64],
            left: offered,
        }
    }

    // The candidate among the fields: the first of those that wait with the least ratio.
    pub fn best(&self, tables: &Tables) -> Option<Candidate>
        ensures { BestIs self.now.places self.now.closed tables.now.fields tables.now.tops tables.now.mnrs result }
    {
        let end = tables.considered();
        let watch = Watch::over(self, tables, end);
        watch.best(end)
    }

    // The field stays where it stands.
    fn close(mut self, step: Step) -> Run
        ensures { result ≡ close_at step.field self }
    {
        self.closed[step.field] = true;
        self
    }

    // The field rises by one place, and the price is taken.
    fn raise(mut self, step: Step, price: u32) -> Run
        requires { (place_in self.places step.field ≡ step.place) × (price ≤ self.left) }
        ensures { result ≡ raised_by step.field price self }
    {
        self.places[step.field] += 1;
        self.left -= price;
        self
    }

    // The candidate's turn: too dear closes it, else it rises.
    fn taken(self, step: Step, price: u32) -> Run
        requires { place_in self.places step.field ≡ step.place }
        ensures { result ≡ taken_by step.field price self }
    {
        if price <= self.left {
            self.raise(step, price)
        } else {
            self.close(step)
        }
    }

    // The step of a field from the place at which it stands.
    fn step_of(&self, field: usize) -> Step
        requires { (field < 64) × (place_in self.now.places field < 15) }
        ensures { (result.field ≡ field) × (result.place ≡ place_in self.now.places field) }
    {
        let place = usize::from(self.places[field]);
        Step { field, place }
    }

    // One round.
    pub fn step(mut self, tables: &Tables) -> Run
        ensures { Onward self (round (rules_in tables.now) self) result }
    {
        let Some(found) = self.best(tables) else {
            return self;
        };
        let step = self.step_of(found.field);
        let price = tables.price(step);
        self = self.taken(step, price);
        self
    }

    // Rounds until there is no candidate: `step`, repeated until it changes nothing.
    pub fn finish(self, tables: &Tables) -> Run
        ensures { Finished (rules_in tables.now) self result }
    {
        let mut run = self;
        let end = tables.considered();
        let mut watch = Watch::over(&run, tables, end);
        while let Some(found) = watch.best(end) {
            let step = run.step_of(found.field);
            let price = tables.price(step);
            run = run.taken(step, price);
            watch.update(&run, tables, found.field);
        }
        run
    }
}

// What is kept of each field beside the state, so that a round finds it in two short arrays: whether the field waits, and its ratio
// at its place.
// Kept: with one array of `Option<f64>` the rounds took about a tenth longer.
#[derive(Clone, Copy)]
struct Watch {
    waiting: [bool; 64],
    present: [f64; 64],
}

impl Watch {
    // Of the first fields of a state.
    fn over(run: &Run, tables: &Tables, end: usize) -> Watch
        requires { end ≤ 64 }
        ensures { Watched (rules_in tables.now) run.now.places run.now.closed end result.waiting result.present }
    {
        let mut watch = Watch {
            waiting: [false; 64],
            present: [0.0; 64],
        };
        for field in 0..end {
            watch.update(run, tables, field);
        }
        watch
    }

    // Brings what is kept of a field up to the state.
    fn update(&mut self, run: &Run, tables: &Tables, field: usize)
        requires { field < 64 }
        ensures { Rewatched (rules_in tables.now) run.now.places run.now.closed field self.old.waiting self.old.present self.new.waiting self.new.present }
    {
        let place = run.places[field];
        let waits = !run.closed[field] && place < tables.tops[field].min(15);
        self.waiting[field] = waits;
        if waits {
            let place = usize::from(place);
            self.present[field] = tables.mnr(Step { field, place });
        }
    }

    // The candidate among the first fields, by what is kept of them.
    fn best(&self, end: usize) -> Option<Candidate>
        requires { end ≤ 64 }
        ensures { result ≡ scanned self.now.waiting self.now.present end }
    {
        let mut found = None;
        for field in 0..end {
            if self.waiting[field] {
                found = Candidate::consider(found, field, self.present[field]);
            }
        }
        found
    }
}
