// A port's frame: its length, its octets, a request to write it, and whether an event changed it.
ghost use Rattle.std.specs.Prelude.{◌≡◌, ◌+◌, ◌≤◌, not, [], ◌∷◌, length};
ghost use Rattle.std.proofs.lemmas.List.Edits.{sets};
ghost use Rattle.octets.specs.Octets.{same};
ghost use Rattle.parameters.specs.declared.Feature.TheVariants.{Groups, Flow, Applications};
ghost use Rattle.port.specs.Parts.{running};
ghost use Rattle.port.specs.Writing.{control_value, released_tlv, frame, asks, Wrote};
ghost use Rattle.port.specs.WritingLaws.{FrameLength, Differs, control_tlv, feature_tlvs};

use crate::{Control, Port, Written};
use feature::Release;
use parameters::Feature;
use tlv::Refusal;

// The octets before the sub-TLVs, and before the first feature: control fills 12.
const HEAD: usize = 6;

const FEATURES: usize = 18;

// Running means administratively enabled, LLDP receive on and transmit on (01, Port events).
pub fn running(p: Port) -> bool
    ensures { result ≡ running p }
{
    p.admin && p.receive && p.transmit
}

// How many octets the frame has.
pub fn frame_length(p: Port) -> usize
    ensures { FrameLength p result }
{
    let r = p.released;
    let groups = machine::sub_tlv_length(Feature::Groups, p.groups.max, r.groups);
    let flow = machine::sub_tlv_length(Feature::Flow, p.flow.max, r.flow);
    let applications = machine::sub_tlv_length(
        Feature::Applications,
        p.applications.max,
        r.applications,
    );
    FEATURES + groups + flow + applications
}

// Writes the head of the control sub-TLV, type 1 and length 10, and its versions (01, TLV layout).
fn put_versions(out: &mut [u8], oper: u8, max: u8)
    requires { 10 ≤ length out.old }
    ensures { out.new ≡ sets out.old 6 (2 ∷ 10 ∷ oper ∷ max ∷ []) }
{
    out[6] = 2;
    out[7] = 10;
    out[8] = oper;
    out[9] = max;
}

// Writes the control sub-TLV: its versions, SeqNo and AckNo.
fn put_control(out: &mut [u8], c: Control)
    requires { 18 ≤ length out.old }
    ensures { out.new ≡ sets out.old 6 (control_tlv c) }
{
    put_versions(out, c.oper, c.max);
    octets::numbers::put4(out, 10, c.seq);
    octets::numbers::put4(out, 14, c.ack);
}

// Writes the sub-TLVs that were last released, in ascending type.
fn put_features(p: Port, out: &mut [u8])
    requires { 18 + length (released_tlv p Groups) + length (released_tlv p Flow) + length (released_tlv p Applications) ≤ length out.old }
    ensures { out.new ≡ sets out.old 18 (feature_tlvs p) }
{
    let r = p.released;
    let second = FEATURES + machine::sub_tlv_length(Feature::Groups, p.groups.max, r.groups);
    let third = second + machine::sub_tlv_length(Feature::Flow, p.flow.max, r.flow);
    machine::put_sub_tlv(out, FEATURES, Feature::Groups, p.groups.max, r.groups);
    machine::put_sub_tlv(out, second, Feature::Flow, p.flow.max, r.flow);
    machine::put_sub_tlv(
        out,
        third,
        Feature::Applications,
        p.applications.max,
        r.applications,
    );
}

// Writes the frame, where the caller has room for it.
fn put_frame(p: Port, out: &mut [u8])
    requires { length (frame p) ≤ length out.old }
    ensures { out.new ≡ sets out.old 0 (frame p) }
{
    let n = frame_length(p);
    tlv::put_head(out, n - HEAD);
    put_control(out, p.control);
    put_features(p, out);
}

// A request to write (01, Writing): the frame at the start of `out`, whose other octets stay; or a refusal and nothing.
pub fn write(p: Port, out: &mut [u8]) -> Written
    ensures { Wrote p out.old result out.new }
{
    if !running(p) {
        return Err(Refusal::NotRunning);
    }
    let n = frame_length(p);
    if out.len() < n {
        return Err(Refusal::ShortOutput);
    }
    put_frame(p, out);
    Ok(n)
}

// Whether two controls are written alike.
pub fn same_control(a: Control, b: Control) -> bool
    ensures { result ≡ same (control_value a) (control_value b) }
{
    (a.oper, a.max, a.seq, a.ack) == (b.oper, b.max, b.seq, b.ack)
}

// Whether a feature's sub-TLVs differ, in length or in an octet. Each is short.
fn differs(f: Feature, m: u8, before: Release, n: u8, after: Release) -> bool
    ensures { Differs f m before n after result }
{
    if machine::sub_tlv_length(f, m, before) != machine::sub_tlv_length(f, n, after) {
        return true;
    }
    machine::differs(f, m, before, n, after)
}

// Whether two frames differ; neither is written.
fn frames_differ(before: Port, after: Port) -> bool
    ensures { result ≡ not (same (frame before) (frame after)) }
{
    if !same_control(before.control, after.control) {
        return true;
    }
    let r = before.released;
    let s = after.released;
    if differs(
        Feature::Groups,
        before.groups.max,
        r.groups,
        after.groups.max,
        s.groups,
    ) {
        return true;
    }
    if differs(
        Feature::Flow,
        before.flow.max,
        r.flow,
        after.flow.max,
        s.flow,
    ) {
        return true;
    }
    differs(
        Feature::Applications,
        before.applications.max,
        r.applications,
        after.applications.max,
        s.applications,
    )
}

// Whether an event from one port to another asks for a send (01, Send rule).
pub fn asks(before: Port, after: Port) -> bool
    ensures { result ≡ asks before after }
{
    let runs = running(before);
    if runs != running(after) {
        return true;
    }
    if !runs {
        return false;
    }
    frames_differ(before, after)
}
