//! A law of what a session answers. The function does nothing: its contract is the law, so that the law is proved with the crate.
ghost use Rattle.nine_session.specs.Reading.{ReadGoesByMode};

/// A Tread lists what is a directory to the files. Where DMDIR says so too, that is what has DMDIR in its mode.
pub fn reads_go_by_the_mode()
    ensures { ReadGoesByMode }
{}
