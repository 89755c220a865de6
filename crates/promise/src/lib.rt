// What the archive promises, as theorems: each is carried by an empty function, so that the crate is not proved without its proof.
#![tactic(auto)]

ghost use Rattle.promise.specs.Demand3.{Demand3};
ghost use Rattle.promise.specs.Life.{one, three, Lived};
ghost use Rattle.promise.specs.Worked.{Worked};
ghost use Rattle.promise.specs.SmallCases.{SmallCases};
ghost use Rattle.promise.specs.Hollow.{Hollow};
ghost use Rattle.promise.specs.Companions.{Unmasking, ReadIsFixed, InventoryLists};
ghost use Rattle.promise.specs.Plans.{PlanIsFixed, PlannedRepair, NoThetas, PlanReadsRows};
ghost use Rattle.promise.specs.Losing.{LossesAreFixed, LossesAreReads};
ghost use Rattle.promise.specs.Fresh.{RebuiltIsFresh, TableFixesBytes};
ghost use Rattle.promise.specs.Shares.{GatheredIsWhole, Demand3GoesOn};

// Demand 3: a single claim about every list of Encode, Lose and Repair calls.
pub fn demand3()
    ensures { Demand3 }
{}

// A rebuilt archive is a fresh one: after every list of calls it has the bytes of a new archive with the table's rows encoded.
pub fn rebuilt_is_fresh()
    ensures { RebuiltIsFresh }
{}

// Whatever calls led to it, one table has one archive.
pub fn table_fixes_bytes()
    ensures { TableFixesBytes }
{}

// Gathered shares are the whole archive, of every archive and every set of its nodes (the scheme: boxes).
pub fn gathered_is_whole()
    ensures { GatheredIsWhole }
{}

// Demand 3 goes on: after calls and gathers, in any order, the archive follows the row table.
pub fn demand3_goes_on()
    ensures { Demand3GoesOn }
{}

// Unmasking gives the block that was masked, for every archive.
pub fn unmasking()
    ensures { Unmasking }
{}

// Read's file is fixed for every archive, damaged ones too.
pub fn read_is_fixed()
    ensures { ReadIsFixed }
{}

// Inventory lists each filled place once and nothing else, of every archive.
pub fn inventory_lists()
    ensures { InventoryLists }
{}

// A plan is fixed for every archive.
pub fn plan_is_fixed()
    ensures { PlanIsFixed }
{}

// Repair gives what was planned.
pub fn planned_repair()
    ensures { PlannedRepair }
{}

// Where no plan is found there is none.
pub fn no_thetas()
    ensures { NoThetas }
{}

// A plan for one archive is a plan for any other with the same rows.
pub fn plan_reads_rows()
    ensures { PlanReadsRows }
{}

// Losses has one answer and one list for every archive.
pub fn losses_are_fixed()
    ensures { LossesAreFixed }
{}

// Losses lists what Lose and then Read would show.
pub fn losses_are_reads()
    ensures { LossesAreReads }
{}

// The premises of demand 3 can be met, in layout 1 and with three tags: a concrete life, its bytes computed.
pub fn premises_can_be_met()
    ensures { Lived one × Lived three }
{}

// The worked values, as one table.
pub fn worked_values()
    ensures { Worked }
{}

// What a reader would try on the definitions first.
pub fn small_cases()
    ensures { SmallCases }
{}

// For each mistake and hollow program, the fact that rules it out.
pub fn no_hollow_program()
    ensures { Hollow }
{}
