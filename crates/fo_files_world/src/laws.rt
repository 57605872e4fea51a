//! Laws of the tree that an image shows. Each function does nothing: its contract is the law, so that the law is proved with the crate.
ghost use Rattle.fo_files_world.specs.Laws.{InfoIsTold, FindIsTold, NextIsTold, ReadIsTold, ChangeIsShown};

/// What the file step tells on the active tree is what the records of directories tell: of the file at a place, of a name, of the name
/// after one, and the bytes of a file.
pub fn looks_are_told()
    ensures info { InfoIsTold }
    ensures find { FindIsTold }
    ensures next { NextIsTold }
    ensures read { ReadIsTold }
{}

/// An image in which, along a trail, one record of each directory was changed, and at its end one file, shows the tree in which the file
/// at the end of the trail was changed.
pub fn changes_are_shown()
    ensures { ChangeIsShown }
{}
