//! Laws of the file step. Each function does nothing: its contract is the law, so that the law is proved with the crate.
ghost use Rattle.fo_world.specs.Laws.{WriteGoes, CreateGoes, RemoveGoes, ChangeGoes, OthersStay, InfoIsFit, FindIsFit, ParentIsFit, NextIsFit, WriteFits, CreateFits, RemoveFits, ChangeFits};

/// A call that changes leaves all but the active tree and the next number, and file numbers stay distinct and below the next one. A change of one file leaves the others.
pub fn changes_stay_local()
    ensures write { WriteGoes }
    ensures create { CreateGoes }
    ensures remove { RemoveGoes }
    ensures change { ChangeGoes }
    ensures others { OthersStay }
{}

/// A world within the limits of names and users stays so.
pub fn worlds_stay_within_limits()
    ensures write { WriteFits }
    ensures create { CreateFits }
    ensures remove { RemoveFits }
    ensures change { ChangeFits }
{}

/// What is told of a file of a world within the limits fits a stat record.
pub fn infos_are_within_limits()
    ensures info { InfoIsFit }
    ensures find { FindIsFit }
    ensures parent { ParentIsFit }
    ensures next { NextIsFit }
{}
