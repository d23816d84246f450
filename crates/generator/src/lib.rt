// A generator of states that anyone can make again from its seed: a word of 64 bits that each draw changes by shifts, and a counter that is added to it.
#![tactic(auto, unfolding(crate::specs::Generator::xorshift, crate::specs::Generator::next_of, crate::specs::Generator::drawn_of, crate::specs::Generator::unit_of, crate::specs::Generator::temperature_of, crate::specs::Generator::density_of, crate::specs::Generator::drawn_state_of))]

ghost use Rattle.std.specs.Prelude.{◌≡◌, ◌*◌};
ghost use Rattle.generator.specs.Generator as is;

#[derive(Clone, Copy)]
pub struct Generator {
    pub word: u64,
    pub counter: u64,
}

// A temperature (K) and a molar density (mol/m³).
#[derive(Clone, Copy)]
pub struct State {
    pub temperature: f64,
    pub density: f64,
}

// A state and the generator after its two draws. By value, as `states_from` has it: each state is drawn from the generator that the one before left.
#[derive(Clone, Copy)]
pub struct DrawnState {
    pub state: State,
    pub generator: Generator,
}

// A shift to the left loses what passes bit 63.
fn xorshift(s: u64) -> u64
    ensures { result ≡ is.xorshift s }
{
    let a = s ^ (s << 13);
    let b = a ^ (a >> 7);
    b ^ (b << 17)
}

fn next(g: Generator) -> Generator
    ensures { result ≡ is.next_of g }
{
    let word = xorshift(g.word);
    let counter = g.counter.wrapping_add(0x9E37_79B9_7F4A_7C15);
    Generator { word, counter }
}

fn drawn(g: Generator) -> u64
    ensures { result ≡ is.drawn_of g }
{
    g.word.wrapping_add(g.counter)
}

// The word's top 53 bits over 2^53: exact. So is the cast of a whole number below 2^53; std has no `f64::from` of a u64.
fn unit(word: u64) -> f64
    ensures { result ≡ is.unit_of word }
{
    (word >> 11) as f64 / 9007199254740992.0
}

fn temperature(word: u64) -> f64
    ensures { result ≡ is.temperature_of word }
{
    200.0 + 250.0 * unit(word)
}

fn density(word: u64) -> f64
    ensures { result ≡ is.density_of word }
{
    0.001 + 29999.0 * unit(word)
}

// The generator of a seed after this many draws; nothing but draws is made.
pub fn after(seed: u64, draws: u64) -> Generator
    ensures { result ≡ is.after_of (is.start_of seed) draws }
{
    let mut g = Generator {
        word: seed,
        counter: 0,
    };
    for _ in 0..draws {
        g = next(g);
    }
    g
}

// The state of the next two draws.
pub fn draw_state(g: Generator) -> DrawnState
    ensures { result ≡ is.drawn_state_of g }
{
    let first = next(g);
    let second = next(first);
    let state = State {
        temperature: temperature(drawn(first)),
        density: density(drawn(second)),
    };
    DrawnState {
        state,
        generator: second,
    }
}

// State n, reached alone.
pub fn state_at(seed: u64, n: u32) -> State
    ensures { result ≡ is.state_of seed n }
{
    let g = after(seed, 2 * u64::from(n));
    let drawn = draw_state(g);
    drawn.state
}
