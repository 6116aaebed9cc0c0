// Reductions of chain complexes to survivors: mathematics only. Each function stands for the theorem in its
// contract and does nothing.
#![tactic(auto)]

ghost use Rattle.reduction.specs.Laws.{LoadingReduces, CancellingKeeps, CancelsKeep, CancelsEnd};
ghost use Rattle.reduction.specs.Laws.{CancelsComplete, RowsStayZero, LoadedCellsAreLive};
ghost use Rattle.reduction.specs.Laws.{ClassesTell, EqualClasses, HomotopyFills, ClassCodesAreReached};
ghost use Rattle.reduction.specs.Laws.{LiveSumsVanish, SurvivorsAreAComplex};
ghost use Rattle.reduction.specs.Laws.{MoreChainsAreDependent, LiveCellsCount, BettiIsOne, LiveCellsAgree};
ghost use Rattle.reduction.specs.Ring.{RingCancels};

pub fn loading_starts_a_reduction()
    ensures { LoadingReduces }
{}

pub fn cancelling_keeps_a_reduction()
    ensures { CancellingKeeps }
{}

pub fn classes_differ_by_a_boundary_as_cycles_do()
    ensures { ClassesTell }
{}

pub fn equal_classes_differ_by_a_boundary()
    ensures { EqualClasses }
{}

pub fn the_homotopy_fills_a_difference()
    ensures { HomotopyFills }
{}

pub fn class_codes_have_one_cycle()
    ensures { ClassCodesAreReached }
{}

pub fn boundaries_compose_over_live_cells()
    ensures { LiveSumsVanish }
{}

pub fn survivors_are_a_complex()
    ensures { SurvivorsAreAComplex }
{}

pub fn all_cells_are_live_after_loading()
    ensures { LoadedCellsAreLive }
{}

pub fn each_cancel_removes_two_live_cells()
    ensures { CancelsKeep }
{}

pub fn enough_cancels_leave_no_boundary()
    ensures { CancelsEnd }
{}

pub fn cancels_complete_a_reduction()
    ensures { CancelsComplete }
{}

pub fn rows_before_a_cancel_stay_zero()
    ensures { RowsStayZero }
{}

pub fn more_chains_than_places_are_dependent()
    ensures { MoreChainsAreDependent }
{}

pub fn live_cells_count_the_betti_number()
    ensures { LiveCellsCount }
{}

pub fn a_degree_has_one_betti_number()
    ensures { BettiIsOne }
{}

pub fn complete_reductions_have_as_many_live_cells()
    ensures { LiveCellsAgree }
{}

// The worked example: the ring of three edges over the field of three elements.
pub fn the_ring_keeps_one_vertex_and_one_edge()
    ensures { RingCancels }
{}
