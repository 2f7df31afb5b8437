// Setting changes: one feature of a port under another setting.
#![tactic(auto)]

ghost use Rattle.std.specs.Prelude.{◌≡◌};
ghost use Rattle.port.specs.Parts.{feature_of};
ghost use Rattle.sending.specs.Sending.{completed};
ghost use Rattle.changes.specs.Changes.{with_feature, with_setting, setting_changed, set_to, changed_feature, changed_applications, changed_setting};

use feature::{Setting, State, Switches};
use parameters::Feature;
use port::{Event, Port};
use tlv::Refusal;

// Step 5 and the send rule, from the port before the event to the port after steps 1 to 4.
pub fn complete(before: Port, after: Port) -> Port
    ensures { result ≡ completed before after }
{
    let seq = after.control.seq;
    let g = machine::mark(Feature::Groups, seq, before.groups, after.groups);
    let w = machine::mark(Feature::Flow, seq, before.flow, after.flow);
    let a = machine::mark(
        Feature::Applications,
        seq,
        before.applications,
        after.applications,
    );
    sending::send(sending::with_features(after, g, w, a))
}

fn feature_of(p: Port, f: Feature) -> State
    ensures { result ≡ feature_of p f }
{
    match f {
        Feature::Groups => p.groups,
        Feature::Flow => p.flow,
        Feature::Applications => p.applications,
    }
}

fn with_feature(p: Port, f: Feature, x: State) -> Port
    ensures { result ≡ with_feature p f x }
{
    match f {
        Feature::Groups => Port { groups: x, ..p },
        Feature::Flow => Port { flow: x, ..p },
        Feature::Applications => Port {
            applications: x,
            ..p
        },
    }
}

fn with_setting(x: State, s: Setting) -> State
    ensures { result ≡ with_setting x s }
{
    State { setting: s, ..x }
}

// The port under another setting of one feature.
fn set_feature(p: Port, f: Feature, s: Setting) -> Port
    ensures { result ≡ setting_changed f s p }
{
    let x = feature_of(p, f);
    if port::writing::running(p) {
        let y = machine::set_anew(f, p.control.seq, s, x);
        return complete(p, with_feature(p, f, y));
    }
    let y = with_setting(x, s);
    sending::fresh(with_feature(p, f, y))
}

fn set_to(p: Port, f: Feature, s: Setting) -> Event
    ensures { result ≡ set_to f s p }
{
    let x = feature_of(p, f);
    if machine::same_setting(x.setting, s) {
        return events::unchanged(p);
    }
    events::conclude(None, p, set_feature(p, f, s))
}

fn change_feature(p: Port, f: Feature, w: Switches, o: &[u8]) -> Event
    ensures { result ≡ changed_feature f w o.now p }
{
    if !config::valid_local(f, o) {
        return events::refuse(Refusal::InvalidSetting, p);
    }
    set_to(p, f, machine::setting_of(f, w, o))
}

// Applications, where the port's revision has them (02, E11).
fn change_applications(p: Port, w: Switches, o: &[u8]) -> Event
    ensures { result ≡ changed_applications w o.now p }
{
    if !tlv::has_applications(p.revision) {
        return events::refuse(Refusal::UnknownFeature, p);
    }
    change_feature(p, Feature::Applications, w, o)
}

// Changes the setting of the feature with a number; its parameters are given as octets (01, Handling a frame).
#[tactic(auto, unfolding(crate::specs::Changes::changed_setting, parameters::specs::Parameters::feature_number))]
pub fn change_setting(p: Port, number: u8, w: Switches, o: &[u8]) -> Event
    ensures { result ≡ changed_setting number w o.now p }
{
    match Feature::try_from(number) {
        Ok(Feature::Applications) => change_applications(p, w, o),
        Ok(f) => change_feature(p, f, w, o),
        Err(_) => events::refuse(Refusal::UnknownFeature, p),
    }
}
