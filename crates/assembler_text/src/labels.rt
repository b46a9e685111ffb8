// Labels, by the places of their names in the text.
ghost use Rattle.std.specs.Prelude.{◌≡◌, ◌≤◌, length, take};
ghost use Rattle.listing_rules.specs.Characters.{same_text};
ghost use Rattle.assembly_rules.specs.Text.{capitals, leading_run};
ghost use Rattle.assembly_rules.specs.Sums.{label_worth};
ghost use Rattle.assembler_text.specs.Places.{name_at, labels_of, address_worth};

use crate::characters;
use assembly_rules::Worth;

// Labels by the places of their names in the text, and their addresses. They are no slice of structs: room for 64 of those on
// the stack is begun by a call of memset, which no archive brings.
#[derive(Clone, Copy)]
pub struct Labels<'a> {
    pub places: &'a [usize],
    pub addresses: &'a [u32],
}

impl<'a> Labels<'a> {
    // The first so many labels.
    pub fn first(&self, count: usize) -> Labels<'a>
        requires { (count ≤ length self.now.places.now) × (count ≤ length self.now.addresses.now) }
        ensures places_kept { result.places.now ≡ take count self.now.places.now }
        ensures addresses_kept { result.addresses.now ≡ take count self.now.addresses.now }
    {
        Labels {
            places: &self.places[..count],
            addresses: &self.addresses[..count],
        }
    }

    // The address of the first label with a name, if there is one.
    pub fn address_of(&self, text: &[u8], name: &[u8]) -> Option<u32>
        ensures { address_worth result ≡ label_worth (labels_of text.now self.now) (capitals name.now) }
    {
        self.places
            .iter()
            .zip(self.addresses)
            .find(|(place, _)| named(text, **place, name))
            .map(|(_, address)| *address)
    }

    // What a name is worth: its label's address, if it has one.
    #[tactic(auto, unfolding(crate::specs::Places::address_worth))]
    pub fn worth_of(&self, text: &[u8], name: &[u8]) -> Worth
        ensures { result ≡ label_worth (labels_of text.now self.now) (capitals name.now) }
    {
        self.address_of(text, name)
            .map_or(Worth::unknown(), Worth::known)
    }
}

// Whether the run that some characters begin with is a name, in whatever letters.
fn is_name(chars: &[u8], name: &[u8]) -> bool
    ensures { result ≡ same_text (leading_run chars.now) (capitals name.now) }
{
    if chars.len() < name.len() {
        return false;
    }
    name.iter().zip(chars).all(|(n, c)| {
        characters::is_run(*c) && characters::capital(*c) == characters::capital(*n)
    }) && !chars
        .get(name.len())
        .is_some_and(|c| characters::is_run(*c))
}

// Whether the label at a place of the text has a name.
pub fn named(text: &[u8], place: usize, name: &[u8]) -> bool
    ensures { result ≡ same_text (name_at text.now place) (capitals name.now) }
{
    match text.get(place..) {
        Some(chars) => is_name(chars, name),
        None => name.is_empty(),
    }
}
