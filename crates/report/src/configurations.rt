// Configurations in words, as settings have them, each word behind a space.
use parameters::{Feature, Parameters};
use printing::Output;

fn groups(page: &mut Output, p: &[u8]) {
    page.text(b" priorities");
    for i in 0..4 {
        let two = octets::octet(p, i);
        page.field(b" ", u64::from(two / 16));
        page.field(b" ", u64::from(two % 16));
    }
    page.text(b" percentages");
    for i in 4..12 {
        page.field(b" ", u64::from(octets::octet(p, i)));
    }
    page.field(b" classes ", u64::from(octets::octet(p, 12)));
}

fn flow(page: &mut Output, p: &[u8]) {
    page.text(b" mask ");
    page.hex(octets::first(p, 1));
    page.field(b" classes ", u64::from(octets::octet(p, 1)));
}

// The word for the selector that the lower two bits of an octet give.
fn selector(x: u8) -> &'static str {
    match x % 4 {
        0 => "ethertype",
        1 => "port",
        2 => "selector-2",
        _ => "selector-3",
    }
}

// ` SELECTOR ID MAP`
fn entry(page: &mut Output, e: &[u8]) {
    write!(page, " {} ", selector(octets::octet(e, 2)));
    page.hex(octets::first(e, 2));
    page.text(b" ");
    page.hex(octets::from(e, 5));
}

fn applications(page: &mut Output, p: &[u8], none: bool) {
    let entries = p.chunks_exact(6);
    if none && entries.len() == 0 {
        page.text(b" none");
    }
    for e in entries {
        entry(page, e);
    }
}

// The configuration in words. No applications are ` none` where `none` says so, and otherwise nothing at all.
pub fn configuration(page: &mut Output, f: Feature, p: &Parameters, none: bool) {
    let c = p.content();
    match f {
        Feature::Groups => groups(page, c),
        Feature::Flow => flow(page, c),
        Feature::Applications => applications(page, c, none),
    }
}
