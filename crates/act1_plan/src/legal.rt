ghost use Rattle.std.specs.Prelude.{◌≡◌, ◌↔◌, IsTrue, None};
ghost use Rattle.act1_plan.specs.Legal.{Legal};
ghost use Rattle.act1_plan.specs.LegalTest as test;

use crate::order::spot_is_before;
use crate::plan::Plan;
use act1_base::{Name, is_name};
use act1_circuit::{Circuit, Output, Source, Spot, Start};
use act1_device::Device;

// Whether the circuit has the source.
fn has_source(circuit: &Circuit, source: Source) -> bool
    ensures { result ≡ test.has_source circuit.now source }
{
    match source {
        Source::Input(input) => usize::from(input) < circuit.inputs.len(),
        Source::Module(module) => usize::from(module) < circuit.modules.len(),
        Source::Zero | Source::One | Source::Clock => true,
    }
}

// Whether the circuit has all these sources.
fn has_sources(circuit: &Circuit, pins: &[Source]) -> bool
    ensures { result ≡ test.has_sources circuit.now pins.now }
{
    pins.iter().all(|pin| has_source(circuit, *pin))
}

// Whether they are eight sources of the circuit.
fn are_pins(circuit: &Circuit, pins: &[Source]) -> bool
    ensures { result ≡ test.are_pins circuit.now pins.now }
{
    pins.len() == 8 && has_sources(circuit, pins)
}

// Whether the source is the clock.
fn is_clock(source: Source) -> bool
    ensures { result ≡ test.is_clock source }
{
    match source {
        Source::Clock => true,
        Source::Zero | Source::One | Source::Input(_) | Source::Module(_) => false,
    }
}

// Whether the output has a name, and a source that isn't the clock.
fn is_output(circuit: &Circuit, output: &Output) -> bool
    ensures { result ≡ test.is_output circuit.now output.now }
{
    is_name(output.name.as_bytes())
        && !is_clock(output.source)
        && has_source(circuit, output.source)
}

// Whether the start stands at a module, with an init of 0 to 3 and a name.
fn is_start(circuit: &Circuit, start: &Start) -> bool
    ensures { result ≡ test.is_start circuit.now start.now }
{
    is_name(start.name.as_bytes())
        && start.init <= 3
        && usize::from(start.module) < circuit.modules.len()
}

// Whether the numbers can tell apart as many inputs, outputs and modules.
fn are_few(circuit: &Circuit) -> bool
    ensures { result ≡ test.are_few circuit.now }
{
    circuit.inputs.len() <= 65_535
        && circuit.outputs.len() <= 65_535
        && circuit.modules.len() <= 65_535
}

// Whether the starts rise by their modules.
fn starts_rise(starts: &[Start]) -> bool
    ensures { result ≡ test.starts_rise None starts.now }
{
    let mut before = None;
    for start in starts {
        if let Some(module) = before
            && module >= start.module
        {
            return false;
        }
        before = Some(start.module);
    }
    true
}

// Whether the spots rise.
fn spots_rise(spots: &[Spot]) -> bool
    ensures { result ≡ test.spots_rise None spots.now }
{
    let mut before = None;
    for spot in spots {
        if let Some(last) = before
            && !spot_is_before(last, *spot)
        {
            return false;
        }
        before = Some(*spot);
    }
    true
}

// Whether the name is an input's.
fn is_input_name(name: &[u8], inputs: &[Name]) -> bool
    ensures { result ≡ test.is_input_name name.now inputs.now }
{
    inputs.iter().any(|other| name == other.as_bytes())
}

// Whether the name is an output's.
fn is_output_name(name: &[u8], outputs: &[Output]) -> bool
    ensures { result ≡ test.is_output_name name.now outputs.now }
{
    outputs.iter().any(|other| name == other.name.as_bytes())
}

// Whether the name is a latch's.
fn is_start_name(name: &[u8], starts: &[Start]) -> bool
    ensures { result ≡ test.is_start_name name.now starts.now }
{
    starts.iter().any(|other| name == other.name.as_bytes())
}

// Whether no two latches have one name.
fn starts_differ(starts: &[Start]) -> bool
    ensures { result ≡ test.starts_differ starts.now }
{
    for (at, start) in starts.iter().enumerate() {
        if is_start_name(start.name.as_bytes(), &starts[at + 1..]) {
            return false;
        }
    }
    true
}

// Whether no two inputs have one name, and none has that of a latch.
fn inputs_differ(starts: &[Start], inputs: &[Name]) -> bool
    ensures { result ≡ test.inputs_differ starts.now inputs.now }
{
    for (at, input) in inputs.iter().enumerate() {
        let name = input.as_bytes();
        if is_input_name(name, &inputs[at + 1..]) || is_start_name(name, starts) {
            return false;
        }
    }
    true
}

// Whether no two outputs have one name.
fn outputs_differ(outputs: &[Output]) -> bool
    ensures { result ≡ test.outputs_differ outputs.now }
{
    for (at, output) in outputs.iter().enumerate() {
        if is_output_name(output.name.as_bytes(), &outputs[at + 1..]) {
            return false;
        }
    }
    true
}

// Whether the name is an input's, an output's or a latch's.
fn is_taken(circuit: &Circuit, name: &[u8]) -> bool
    ensures { result ≡ test.is_taken circuit.now name.now }
{
    is_input_name(name, circuit.inputs.as_slice())
        || is_output_name(name, circuit.outputs.as_slice())
        || is_start_name(name, circuit.starts.as_slice())
}

// Whether the clock's name, if it has one, is a name and none of the others.
fn is_clock_apart(circuit: &Circuit) -> bool
    ensures { result ≡ test.is_clock_apart circuit.now circuit.now.clock }
{
    match &circuit.clock {
        Some(name) => is_name(name.as_bytes()) && !is_taken(circuit, name.as_bytes()),
        None => true,
    }
}

// Whether all are names.
fn are_names(inputs: &[Name]) -> bool
    ensures { result ≡ test.are_names inputs.now }
{
    inputs.iter().all(|name| is_name(name.as_bytes()))
}

// Whether no two outputs have one name, and the clock has none of the others.
fn outside_differs(circuit: &Circuit) -> bool
    ensures { result ≡ test.outside_differs circuit.now }
{
    outputs_differ(circuit.outputs.as_slice()) && is_clock_apart(circuit)
}

// Whether no two of the inputs and latches have one name.
fn inside_differs(circuit: &Circuit) -> bool
    ensures { result ≡ test.inside_differs circuit.now }
{
    let starts = circuit.starts.as_slice();
    inputs_differ(starts, circuit.inputs.as_slice()) && starts_differ(starts)
}

// Whether the names of inputs are names, and names differ where they must.
fn has_names(circuit: &Circuit) -> bool
    ensures { result ≡ test.has_names circuit.now }
{
    are_names(circuit.inputs.as_slice()) && inside_differs(circuit) && outside_differs(circuit)
}

// Whether each module has its pins.
fn are_modules(circuit: &Circuit) -> bool
    ensures { result ≡ test.are_modules circuit.now }
{
    circuit
        .modules
        .as_slice()
        .iter()
        .all(|pins| are_pins(circuit, pins))
}

// Whether all are outputs.
fn are_outputs(circuit: &Circuit) -> bool
    ensures { result ≡ test.are_outputs circuit.now }
{
    circuit
        .outputs
        .as_slice()
        .iter()
        .all(|output| is_output(circuit, output))
}

// Whether all are starts.
fn all_starts(circuit: &Circuit) -> bool
    ensures { result ≡ test.all_starts circuit.now }
{
    circuit
        .starts
        .as_slice()
        .iter()
        .all(|start| is_start(circuit, start))
}

// Whether all are starts, and rise by their modules.
fn are_starts(circuit: &Circuit) -> bool
    ensures { result ≡ test.are_starts circuit.now }
{
    all_starts(circuit) && starts_rise(circuit.starts.as_slice())
}

// Whether the circuit keeps the rules that need no device. Names are compared last, when there are few.
fn is_circuit(circuit: &Circuit) -> bool
    ensures { result ≡ test.is_circuit circuit.now }
{
    are_few(circuit)
        && are_modules(circuit)
        && are_outputs(circuit)
        && are_starts(circuit)
        && has_names(circuit)
}

// Whether the spot is on the device.
fn is_on_device(device: &Device, spot: Spot) -> bool
    ensures { result ≡ test.is_on_device device.now spot }
{
    spot.row < device.rows && spot.column < device.columns
}

// Whether all the spots are on the device.
fn are_on_device(device: &Device, spots: &[Spot]) -> bool
    ensures { result ≡ test.are_on_device device.now spots.now }
{
    spots.iter().all(|spot| is_on_device(device, *spot))
}

// Whether there is a spot of the device for each module, in site order.
fn are_spots(device: &Device, plan: &Plan) -> bool
    ensures { result ≡ test.are_spots device.now plan.now }
{
    let spots = plan.placed.spots.as_slice();
    spots.len() == plan.placed.circuit.modules.len()
        && are_on_device(device, spots)
        && spots_rise(spots)
}

// Whether there is a pad for each input and each output.
fn has_pads(device: &Device, circuit: &Circuit) -> bool
    ensures { result ≡ test.has_pads device.now circuit.now }
{
    let pads = device.pads.len();
    let inputs = circuit.inputs.len();
    inputs <= pads && circuit.outputs.len() <= pads - inputs
}

// Whether the number of segments is one that a plan may have.
fn is_k(k: u8) -> bool
    ensures { result ≡ test.is_k k }
{
    1 <= k && k <= 64
}

// Whether the plan keeps the rules but that on the device's name.
fn is_legal_but(device: &Device, plan: &Plan) -> bool
    ensures { result ≡ test.is_legal_but device.now plan.now }
{
    is_k(plan.k)
        && has_pads(device, &plan.placed.circuit)
        && are_spots(device, plan)
        && is_circuit(&plan.placed.circuit)
}

impl Plan {
    /// Whether the plan is legal for the device: it has the device's name, `k` is 1 to 64, each module has a spot,
    /// the spots are on the device and rise by row and then by column, sources and starts are in range, starts rise
    /// by their modules, each init is 0 to 3, no output's source is the clock, inputs plus outputs are at most the
    /// pads, and names are names (1 to 1,024 bytes from 0x21 to 0x7E without `#`, of which the last is no
    /// backslash): no two inputs, outputs or latches have one name, no latch has that of an input, and none has that
    /// of the clock. It takes no memory, and answers for any plan. The rules are this project's own.
    pub fn legal(&self, device: &Device) -> bool
        ensures { IsTrue result ↔ Legal device.now self.now }
    {
        self.device.is(device.name.as_bytes()) && is_legal_but(device, self)
    }
}
