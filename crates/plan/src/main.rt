// Plans the cycle of chart.bin under the rules of rules.bin, both in the current folder.
#![tactic(auto)]

fn main(rt: HostRuntime) {
    command::run(&rt, b"chart.bin", b"rules.bin");
}
