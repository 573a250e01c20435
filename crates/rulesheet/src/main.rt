// Reads a recording from standard input, and writes its sheet or the line of a refusal to standard output.
#![tactic(auto)]

// The input has room for one byte more than the program takes, so that a longer one is seen and refused.
fn main() {
    let mut input = [0u8; 24577];
    let mut list = [0u32; 1024];
    let mut book = [0u32; 1024];
    let mut sheet = [0u32; 1024];
    let mut output = [0u8; 24576];
    let got = io::read_full(0, &mut input);
    let length = program::run(&input[..got], &mut list, &mut book, &mut sheet, &mut output);
    io::write_all(1, &output[..length]);
}
