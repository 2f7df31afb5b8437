// The creation of a port, and what stands where none has been made.
#![tactic(auto)]

ghost use Rattle.std.specs.Prelude.{◌≡◌};
ghost use Rattle.machine.specs.State.{fresh, setting_of};
ghost use Rattle.port.specs.Parts.{switched_off, three};
ghost use Rattle.creation.specs.Creation.{blank_port, started, made, created_with, created};

use feature::{Setting, State, Switches};
use parameters::Feature;
use port::{Event, Port, Versions};
use tlv::{Refusal, Revision};

// Nothing advertised, enabled or willing.
const OFF: Switches = Switches {
    advertise: false,
    enable: false,
    willing: false,
};

// A feature where no port has been made, with these parameters.
fn blank_state(f: Feature, o: &[u8]) -> State
    ensures { result ≡ fresh 0 (setting_of f switched_off o.now) }
{
    machine::fresh_at(1, 0, machine::setting_of(f, OFF, o))
}

// What stands where no port has been made: stopped, versions 0, nothing advertised, and a setting that asks for nothing.
pub fn blank() -> Port
    ensures { result ≡ blank_port }
{
    let one_group = [0, 0, 0, 0, 100, 0, 0, 0, 0, 0, 0, 0, 0];
    let no_flow = [0; 2];
    let g = blank_state(Feature::Groups, &one_group);
    let w = blank_state(Feature::Flow, &no_flow);
    let a = blank_state(Feature::Applications, octets::first(&no_flow, 0));
    Port {
        revision: Revision::Rev101,
        admin: false,
        receive: false,
        transmit: false,
        several: false,
        control: sending::fresh_control(0),
        groups: g,
        flow: w,
        applications: a,
        released: sending::presents(g, w, a),
    }
}

// A port just created, running and with its send rule done.
fn start(v: Versions, g: Setting, w: Setting, a: Setting) -> Port
    ensures { result ≡ started v g w a }
{
    let x = machine::fresh_at(1, v.groups, g);
    let y = machine::fresh_at(1, v.flow, w);
    let z = machine::fresh_at(1, v.applications, a);
    sending::send(Port {
        revision: v.revision,
        admin: true,
        receive: true,
        transmit: true,
        several: false,
        control: sending::fresh_control(v.control),
        groups: x,
        flow: y,
        applications: z,
        released: sending::presents(x, y, z),
    })
}

// The port of three settings that are valid, in the place of another.
fn make(p: Port, v: Versions, g: Setting, w: Setting, a: Setting) -> Event
    ensures { result ≡ made p (started v g w a) }
{
    let next = start(v, g, w, a);
    Event {
        answer: Ok(port::writing::asks(p, next)),
        port: next,
        notices: events::silent(),
    }
}

// The port of settings for all three features, or the refusal of an invalid one.
fn create_with(
    p: Port,
    v: Versions,
    g: Switches,
    gp: &[u8],
    w: Switches,
    wp: &[u8],
    a: Switches,
    ap: &[u8],
) -> Event
    ensures { result ≡ created_with v (three g w a) (three gp.now wp.now ap.now) p }
{
    if !config::valid_local(Feature::Groups, gp) {
        return events::refuse(Refusal::InvalidSetting, p);
    }
    if !config::valid_local(Feature::Flow, wp) {
        return events::refuse(Refusal::InvalidSetting, p);
    }
    if !config::valid_local(Feature::Applications, ap) {
        return events::refuse(Refusal::InvalidSetting, p);
    }
    let x = machine::setting_of(Feature::Groups, g, gp);
    let y = machine::setting_of(Feature::Flow, w, wp);
    let z = machine::setting_of(Feature::Applications, a, ap);
    make(p, v, x, y, z)
}

// Creates a port in the place of another: the switches and the parameters, as octets, of priority groups, flow control and
// applications. An invalid setting is refused, and leaves the other (01, Refusal numbers). Under Rev 1.0
// nothing is taken for applications: what is given for them is not looked at.
// Switches and octets are not put into one struct: the arguments of a public operation stay.
pub fn create(
    p: Port,
    v: Versions,
    g: Switches,
    gp: &[u8],
    w: Switches,
    wp: &[u8],
    a: Switches,
    ap: &[u8],
) -> Event
    ensures { result ≡ created v (three g w a) (three gp.now wp.now ap.now) p }
{
    if tlv::has_applications(v.revision) {
        return create_with(p, v, g, gp, w, wp, a, ap);
    }
    let versions = Versions {
        applications: 0,
        ..v
    };
    create_with(p, versions, g, gp, w, wp, OFF, octets::first(ap, 0))
}
