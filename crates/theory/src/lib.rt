// The theory of fields and their cheapest pictures. A function here does nothing but carry a theorem as its contract,
// so that the crate is proved only with the theorem.
#![tactic(auto)]

ghost use Rattle.std.specs.Prelude.{◌≡◌, ℕ, ◌<◌, length, ℤ, slice_index_or};
ghost use Rattle.theory.specs.Pictures.{Picture};
ghost use Rattle.theory.specs.Nets.{net_total, Flows, Certificate};
ghost use Rattle.theory.specs.Fields.{Field, Sound, Of, total, Cheapest, Lowest, net_of};
ghost use Rattle.theory.specs.Promises.{BothCheapest, StepsUp, UnderCheapest, UnderLowest};
ghost use Rattle.theory.specs.Sheets.{Sheet};
ghost use Rattle.theory.specs.Levels.{Stepped, LeastCut};
ghost use Rattle.theory.specs.Table.{Shown, no_row, table};

// A field and its net of arcs have the same costs, so that what is shown of nets holds of fields.
pub fn same_total_holds()
    ensures { (f : Field) (u : Picture) → total f u ≡ net_total (net_of f) u }
{}

// The lower values of two cheapest pictures make a cheapest one, and so do the higher values.
pub fn meet_join_holds()
    ensures { (f : Field) (u v : Picture) → Cheapest f u → Cheapest f v → BothCheapest f u v }
{}

// Where each step up costs no more, the lowest picture is nowhere higher than any cheapest one, nor than the lowest.
pub fn steeper_holds()
    ensures cheapest { (f g : Field) → StepsUp f g → UnderCheapest f g }
    ensures lowest { (f g : Field) → StepsUp f g → UnderLowest f g }
{}

// Every sound field has a lowest cheapest picture.
pub fn existence_holds()
    ensures { (f : Field) → Sound f → (u : Picture) × Lowest f u }
{}

// A sheet for a picture is a certificate in the field's net, and the other way.
pub fn sheet_net_holds()
    ensures certificate { (f : Field) (u : Picture) (x : Flows) → Sheet f u x → Certificate (net_of f) u x }
    ensures sheet { (f : Field) (u : Picture) (x : Flows) → Certificate (net_of f) u x → Sheet f u x }
{}

// A picture with a sheet is cheapest.
pub fn sheet_right_holds()
    ensures { (f : Field) (u : Picture) (x : Flows) → Sound f → Of f u → Sheet f u x → Cheapest f u }
{}

// A sheet for one picture is a sheet for every cheapest one.
pub fn one_sheet_holds()
    ensures { (f : Field) (u v : Picture) (x : Flows) → Sound f → Of f u → Sheet f u x → Cheapest f v → Sheet f v x }
{}

// A least cut of a field with the values 0 and 1 is its lowest cheapest picture, and its flows are a sheet for it.
pub fn least_cut_holds()
    ensures sheet { (f : Field) (x : Flows) (step : ℕ → ℤ) (u : Picture) → Sound f → f.top ≡ 1 → Stepped (net_of f) x step → LeastCut (net_of f) x step u → Sheet f u x }
    ensures lowest { (f : Field) (x : Flows) (step : ℕ → ℤ) (u : Picture) → Sound f → f.top ≡ 1 → Stepped (net_of f) x step → LeastCut (net_of f) x step u → Lowest f u }
{}

// In each row of the table the picture is the lowest cheapest one at the stated cost, and the flows are a sheet for it.
pub fn table_holds()
    ensures { (k : ℕ) → k < length table → Shown (slice_index_or table k no_row) }
{}
