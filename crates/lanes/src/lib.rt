// The meaning of the language. The definitions are in specs/; what stands here are the theorems about them, each the contract of a function.
#![tactic(auto)]

ghost use Rattle.lanes.specs.Promise.{OneEnd, AnyOrder, Exchange, Phases, WhatRaces, NeverAccused, OneVerdict};
ghost use Rattle.lanes.specs.There.{TouchesThere, WrongEnded};
ghost use Rattle.lanes.specs.Table.{TableStands};

// Whatever the order, all comes to one grid, if one order does so without a race.
pub fn one_end_stands()
    ensures { OneEnd }
{}

// Of a program in bounds: one order to the end without a race, and every order leaves the same field.
pub fn any_order_stands()
    ensures { AnyOrder }
{}

// Neighbouring turns of different lanes that don't race may be exchanged.
pub fn exchange_stands()
    ensures { Exchange }
{}

// Each lane touches the same cells, in the same order and phases, whatever the order of the turns.
pub fn phases_stands()
    ensures { Phases }
{}

// Which two touches race, said from both sides.
pub fn what_races_stands()
    ensures { WhatRaces }
{}

// Whatever is touched is there, and no place of memory becomes longer or shorter.
pub fn touches_there_stands()
    ensures { TouchesThere }
{}

// A lane that has gone wrong does nothing more, and stays wrong.
pub fn wrong_ended_stands()
    ensures { WrongEnded }
{}

// A program in order is never accused: where one row of turns shows its field, no row shows a race, a wrong lane, a stuck group or too many steps.
pub fn never_accused_stands()
    ensures { NeverAccused }
{}

// Where a field may be told of a program in bounds, nothing else may.
pub fn one_verdict_stands()
    ensures { OneVerdict }
{}

// Every row of the table of small programs: its own order shows what is told of it, and a field is that of every order.
pub fn table_stands()
    ensures { TableStands }
{}
