// Cryptograms: asked for, given, and which answers a request allows.
#![tactic(auto)]

ghost use Rattle.std.specs.Prelude.{◌≡◌};
ghost use Rattle.decide_cryptogram.specs.Cryptograms.{p1_of, given_by, answers_first, answers_second, allowed_by};

// A cryptogram, asked for or given.
#[derive(Clone, Copy)]
pub enum Cryptogram {
    Aac,
    Tc,
    Arqc,
}

// The first GENERATE AC or the second, and what it asks for.
#[derive(Clone, Copy)]
pub enum Request {
    First(Cryptogram),
    Second(Cryptogram),
}

// P1 of GENERATE AC: one of two bytes that stand for a cryptogram (9F27 has the other), so no `From`.
pub fn p1(asked: Cryptogram) -> u8
    ensures { result ≡ p1_of asked }
{
    match asked {
        Cryptogram::Aac => 0x00,
        Cryptogram::Tc => 0x40,
        Cryptogram::Arqc => 0x80,
    }
}

// What 9F27 says: a cryptogram, or the type that stands for none.
#[tactic(auto, unfolding(crate::specs::Cryptograms::given_by, slices::specs::Choice::pick))]
pub fn given_by(cid: u8) -> Option<Cryptogram>
    ensures { result ≡ given_by cid }
{
    match cid / 64 {
        0 => Some(Cryptogram::Aac),
        1 => Some(Cryptogram::Tc),
        2 => Some(Cryptogram::Arqc),
        _ => None,
    }
}

fn answers_first(asked: Cryptogram, answer: Cryptogram) -> bool
    ensures { result ≡ answers_first asked answer }
{
    match asked {
        Cryptogram::Tc => true,
        Cryptogram::Arqc => !matches!(answer, Cryptogram::Tc),
        Cryptogram::Aac => matches!(answer, Cryptogram::Aac),
    }
}

fn answers_second(asked: Cryptogram, answer: Cryptogram) -> bool
    ensures { result ≡ answers_second asked answer }
{
    match answer {
        Cryptogram::Aac => true,
        Cryptogram::Arqc => false,
        Cryptogram::Tc => matches!(asked, Cryptogram::Tc),
    }
}

#[tactic(auto, unfolding(crate::specs::Cryptograms::allowed_by))]
pub fn allowed(request: Request, given: Option<Cryptogram>) -> bool
    ensures { result ≡ allowed_by request given }
{
    match (request, given) {
        (Request::First(asked), Some(answer)) => answers_first(asked, answer),
        (Request::Second(asked), Some(answer)) => answers_second(asked, answer),
        (_, None) => false,
    }
}
