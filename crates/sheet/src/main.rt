#![tactic(auto)]

// The sheet program: a history text from standard input, its plan or its refusal to standard output.
ghost use Rattle.std.specs.Prelude.{◌≡◌};
ghost use Rattle.history.specs.Plan.{sheet_of};

use history::planning::{MAX_OUTPUT, sheet_text};
use input::{MAX_READ, read_text};

// What goes wrong is told on standard error; where that cannot be written either, nobody can be told. One line, with no contract to share.
fn tell(rt: &impl Eprint, what: &str) {
    let _ = rt.eprintln(what);
}

// Writes what the program prints for a text. The program `wall` has `tell`, `print` and `main` of the same form: what each prints is a `requires` of its own
// here, and one body for both would have to be handed that statement, too, and the words for what goes wrong.
fn print(rt: &(impl Print + Eprint), text: &[u8], page: &[u8])
    requires { page.now ≡ sheet_of text.now }
{
    if rt.write_all(page).is_err() {
        tell(rt, "sheet: output lost");
    }
}

fn main(rt: HostRuntime) {
    let mut text = [0u8; MAX_READ];
    // Half a text can be well formed, and its plan would look like a good one.
    let Ok(n) = read_text(&mut rt.stdin(), &mut text) else {
        tell(&rt, "sheet: input cannot be read");
        return;
    };
    let mut out = [0u8; MAX_OUTPUT];
    let m = sheet_text(&text[..n], &mut out);
    print(&rt, &text[..n], &out[..m]);
}
