// Types of the rules of the assembler.
#![tactic(auto)]

ghost use Rattle.std.specs.Prelude.{◌≡◌, ◌<◌, true, false};
ghost use Rattle.assembly_rules.specs.Sums.{scan, scan_start, scanned, is_whole, worth};

// What a token is in a sum.
#[derive(Clone, Copy)]
pub enum Role {
    Term,
    Plus,
    Minus,
    Opens,
    Closes,
    Other,
}

// A sum scanned so far: whether it may be one, the parentheses open, the most that were open at once, whether a term is due,
// and whether a sum begins here. It is no option: `depth_of` says of any tokens how many are open at once, no sum or one.
#[derive(Clone, Copy)]
pub struct Scan {
    pub good: bool,
    pub opened: usize,
    pub most: usize,
    pub due: bool,
    pub begins: bool,
}

impl Scan {
    // Where a sum begins a term is due.
    pub fn start() -> Scan
        ensures { result ≡ scan_start }
    {
        Scan {
            good: true,
            opened: 0,
            most: 0,
            due: true,
            begins: true,
        }
    }

    // The scan after one more token, which stands where it may; what stands elsewhere is part of no sum.
    #[tactic(auto, unfolding(crate::specs::Sums::scanned))]
    pub fn after(self, part: Role) -> Scan
        requires { self.opened < 18446744073709551615 }
        ensures { result ≡ scanned self part }
    {
        match part {
            Role::Term if self.due => self.going(false),
            Role::Plus if !self.due => self.going(true),
            Role::Minus if !self.due || self.begins => self.going(true),
            Role::Opens if self.due => {
                let opened = self.opened + 1;
                Scan {
                    opened,
                    most: self.most.max(opened),
                    due: true,
                    begins: true,
                    ..self
                }
            }
            Role::Closes if !self.due && self.opened != 0 => Scan {
                opened: self.opened - 1,
                ..self.going(false)
            },
            _ => Scan {
                good: false,
                ..self
            },
        }
    }

    // The same parentheses, with a term due or not.
    fn going(self, due: bool) -> Scan
        ensures { result ≡ scan self.good self.opened self.most due false }
    {
        Scan {
            due,
            begins: false,
            ..self
        }
    }

    // Whether the tokens are a sum: no term is due and nothing is open.
    pub fn is_whole(self) -> bool
        ensures { result ≡ is_whole self }
    {
        self.good && !self.due && self.opened == 0
    }
}

// What a sum is worth, mod 65,536, and whether each of its names is known; an unknown one counts 0. It is no option:
// `statement_bytes` says the bytes of any line by the value, with unknown names or without.
#[derive(Clone, Copy)]
pub struct Worth {
    pub value: u32,
    pub known: bool,
}

impl Worth {
    // A number that is known.
    pub fn known(value: u32) -> Worth
        ensures { result ≡ worth value true }
    {
        Worth { value, known: true }
    }

    // What a name that no label has is worth.
    pub fn unknown() -> Worth
        ensures { result ≡ worth 0 false }
    {
        Worth {
            value: 0,
            known: false,
        }
    }
}
