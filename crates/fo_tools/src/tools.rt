//! The tools.
ghost use Rattle.std.specs.Prelude.{◌≡◌, List};
ghost use Rattle.fo_disk.specs.Disk.{Block};
ghost use Rattle.fo_sound.specs.Device.{Shows};
ghost use Rattle.fo_check_image.specs.Answer.{Reports};
ghost use Rattle.fo_check_image.specs.declared.report.Report.{Report};
ghost use Rattle.fo_tools.specs.Ending.{HasCauses, PrintsFormat, EndsFormat, WritesNothing, PrintsReport, EndsCheck, MayMiss, MayEndFormat, MayEndCheck, AsksSizes};

use crate::end::ToolEnd;
use crate::line::{format_line, report_line};
use fo_check_image::check;
use fo_disk::Disk;
use fo_format::format;
use fo_links::Sink;
use std::alloc::Global;

/// Formats both devices, whatever they hold, and prints `formatted <blocks> blocks <data blocks> data`. `time` is the moment of
/// the root directory, in seconds since 1970-01-01 UTC.
pub fn flfmt<D: Disk, A: Disk, K: Sink>(
    alloc: Global,
    main: &mut D,
    arena: &mut A,
    out: &mut K,
    time: u32,
) -> ToolEnd
    // What is printed, and which ends there are, over any devices.
    ensures prints { PrintsFormat (D.size main.new) (K.held out.old) (K.held out.new) result }
    ensures sized { MayEndFormat (D.size main.new) (A.size arena.new) result }
    ensures asked { AsksSizes (D.size main.new) (D.calls main.old) (D.calls main.new) (A.calls arena.old) (A.calls arena.new) result }

    // What quiet devices that tell what they hold have then.
    ensures ends { (image vault : List Block) → Shows (D.state main.old).holds image → Shows (A.state arena.old).holds vault
        → EndsFormat time image vault (D.state main.new).holds (A.state arena.new).holds result }

    // Where nothing was written, nothing changed.
    ensures main { WritesNothing result → D.state main.new ≡ D.state main.old }
    ensures arena { WritesNothing result → A.state arena.new ≡ A.state arena.old }

    ensures causes { HasCauses (record { main = D.faults main.old; arena = A.faults arena.old; out = K.faults out.old }) (record { main = D.faults main.new; arena = A.faults arena.new; out = K.faults out.new }) result }
{
    let blocks = match main.blocks() {
        Ok(blocks) => blocks,
        Err(_) => return ToolEnd::MainRead,
    };
    if blocks < 64 || 1 << 20 < blocks {
        return ToolEnd::Size;
    }
    if let Err(e) = format(alloc, main, arena, time) {
        return ToolEnd::from(e);
    }
    match out.put(format_line(blocks as u32).as_str().as_bytes()) {
        Ok(()) => ToolEnd::Ended,
        Err(_) => ToolEnd::Output,
    }
}

/// Checks both devices and prints `sound <blocks> blocks <used> used <leaked> leaked <n> snapshots`. It writes no device.
pub fn flchk<D: Disk, A: Disk, K: Sink>(
    alloc: Global,
    main: &mut D,
    arena: &mut A,
    out: &mut K,
) -> ToolEnd
    // What is printed, over any devices, is the line of a report or nothing; over quiet devices that tell what they hold it is the
    // line of their report.
    ensures prints { PrintsReport (λ r. (image vault : List Block) → Shows (D.state main.old).holds image → Shows (A.state arena.old).holds vault → Reports image vault r)
        (K.held out.old) (K.held out.new) result }

    // Which ends there are, over any devices.
    ensures sized { MayEndCheck (D.size main.new) (A.size arena.new) result }
    ensures asked { AsksSizes (D.size main.new) (D.calls main.old) (D.calls main.new) (A.calls arena.old) (A.calls arena.new) result }

    // Why nothing is printed, over devices that tell; and a sound image is reported.
    ensures ends { (image vault : List Block) → Shows (D.state main.old).holds image → Shows (A.state arena.old).holds vault → EndsCheck image vault result }
    ensures only { (image vault : List Block) (r : Report) → Shows (D.state main.old).holds image → Shows (A.state arena.old).holds vault → Reports image vault r → MayMiss result }

    // Nothing is written.
    ensures main { D.state main.new ≡ D.state main.old }
    ensures arena { A.state arena.new ≡ A.state arena.old }

    ensures causes { HasCauses (record { main = D.faults main.old; arena = A.faults arena.old; out = K.faults out.old }) (record { main = D.faults main.new; arena = A.faults arena.new; out = K.faults out.new }) result }
{
    match check(alloc, main, arena) {
        Ok(report) => match out.put(report_line(&report).as_str().as_bytes()) {
            Ok(()) => ToolEnd::Ended,
            Err(_) => ToolEnd::Output,
        },
        Err(e) => ToolEnd::from(e),
    }
}
