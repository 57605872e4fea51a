//! Laws of sound and good images. Each function does nothing: its contract is the law, so that the law is proved with the crate.
ghost use Rattle.fo_good_laws.specs.Laws.{FreshIsSound, FreshIsEmpty, FreshLosesNone, BuiltIsSound, SoundIsBuilt, WorldsFit, NamesEnd, OpenedIsGood, GoodShowsAll};

/// Devices that were just formatted are sound, and are opened as the empty world of that moment, and as no other. No block of them is lost.
pub fn fresh_images_are_sound()
    ensures sound { FreshIsSound }
    ensures empty { FreshIsEmpty }
    ensures lost { FreshLosesNone }
{}

/// Where no file and no snapshot is there, an image is sound exactly where it is by the smaller definition, which knows no files.
pub fn empty_images_are_sound()
    ensures built { BuiltIsSound }
    ensures back { SoundIsBuilt }
{}

/// Devices that are opened as a world have a good image for it, with nothing stale and nothing in doubt. That world is within the limits.
pub fn opened_images_are_good()
    ensures good { OpenedIsGood }
    ensures fit { WorldsFit }
    ensures ends { NamesEnd }
{}

/// A good image in which nothing is stale and nothing in doubt shows all of its world.
pub fn good_images_show_all()
    ensures { GoodShowsAll }
{}
