//! The law that images are there.
ghost use Rattle.std.specs.Prelude.{List};
ghost use Rattle.fo_disk.specs.Disk.{Block};
ghost use Rattle.fo_image.specs.declared.types.Super.{Super};
ghost use Rattle.fo_image.specs.declared.record.RootBlock.{RootBlock};
ghost use Rattle.fo_sound.specs.Sound.{HasActiveRoot};
ghost use Rattle.fo_check_images.specs.Images.{AreWhole, HasImage};

/// A device of whole blocks with an active root has an image.
pub fn images_are_there()
    ensures { (device : List Block) (s : Super) (root : RootBlock) → AreWhole device → HasActiveRoot device s root → HasImage device s root }
{}
