// show RACK: prints a rack file as text, or the line why it is refused.
#![tactic(auto)]

use print::fail::tell;
use print::line::Line;
use print::say::say;
use sheet::tags::put_sheet;
use text::args::count;
use text::file::load;

// More than the text of the largest rack.
const ROOM: usize = 1048576;

// What is printed of a file, laid into a line and written whole.
fn show(rt: &HostRuntime, file: &[u8]) {
    let mut room = [0u8; ROOM];
    let mut line = Line::new(&mut room);
    put_sheet(&mut line, file);
    if !line.is_full() {
        say(rt, line.text());
        return;
    }
    tell(rt, b"RACK: its text is too long\n");
}

fn main(rt: HostRuntime) {
    if count(&rt) != 2 {
        tell(&rt, b"usage: show RACK\n");
        return;
    }
    let mut file = [0u8; 65537];
    if let Some(len) = load(&rt, 1, b"RACK", &mut file) {
        show(&rt, &file[..len]);
    }
}
