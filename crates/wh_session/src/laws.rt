//! Laws of sessions. They speak of the definitions alone and do nothing.

ghost use Rattle.wh_session.specs.Laws.{OneLineIsItsAnswer, LinesFollow, SessionsKeepToTheirFile, ShutFilesAreReported, SendingIsDelivering};

use wh_program::Host;

/// A session of one line is its answer; and one of more lines is a session of the first, and then one of the others.
pub fn sessions_follow<H: Host>()
    ensures one { OneLineIsItsAnswer H.holds H.refuses H.stores H.shut }
    ensures follow { LinesFollow H.holds H.refuses H.stores H.shut }
{}

/// A session leaves what stands under names but its own; and where the host can't open that one, each line says so, and nothing changes.
pub fn sessions_keep_to_their_file<H: Host>()
    ensures keep { SessionsKeepToTheirFile H.holds H.refuses H.stores H.shut }
    ensures shut { ShutFilesAreReported H.holds H.refuses H.stores H.shut }
{}

/// A session of loads, migrations and upgrades leaves what a delivery of the same commands leaves, and prints the same answers.
pub fn sending_is_delivering<H: Host>()
    ensures { SendingIsDelivering H.holds H.refuses H.stores H.shut }
{}
