// The port in front of the lines of an answer, as the line that is answered has it in front.
use printing::Output;

const LINE_FEED: u8 = 10;

// `N `, where the line gave its port.
pub fn first(page: &mut Output, port: Option<u8>) {
    if let Some(n) = port {
        page.number(u64::from(n));
        page.text(b" ");
    }
}

// Puts the lines of an answer, with `N ` before each but the first, before which it stands already.
pub fn others(page: &mut Output, port: Option<u8>, lines: &[u8]) {
    let mut front = None;
    for line in lines.split_inclusive(|x| *x == LINE_FEED) {
        first(page, front);
        page.text(line);
        front = port;
    }
}
