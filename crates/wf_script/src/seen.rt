//! The names that are bound so far, and who sees them.

ghost use Rattle.std.specs.Prelude.{◌≡◌, ◌<◌, ◌++◌, ◌∷◌, ◌==◌, ◌||◌, ◌&&◌, [], ℕ, List, false, length, slice_index_or, IfOk, IfSome};
ghost use Rattle.std.specs.Prelude.{OnOk, option_map, option_to_list};
ghost use Rattle.std.specs.List.{list_all, list_any};
ghost use Rattle.wf_script.specs.declared.line.Line.{Line};
ghost use Rattle.wf_script.specs.Fields.{name_in, names_in};
ghost use Rattle.wf_script.specs.Items.{item_of, items_of};
ghost use Rattle.wf_script.specs.Seen.{SeesAll, clients_of, is_among, sees};
ghost use Rattle.wf_script.specs.Visible.{is_name_in};

use crate::field::Item;
use std::alloc::Global;
use wf_names::NameMap;
use wf_words::NoMemory;

/// How many clients there are.
pub(crate) const CLIENTS: usize = 8;

/// For each name the clients that see it, and whether only client 0 has spoken.
#[derive(Drop)]
pub(crate) struct Seen<'a> {
    pub clients: NameMap<'a, [bool; 8]>,
    pub in_setup: bool,
}

/// Whether only client 0 has spoken, with a line of a client.
fn stays_setup(in_setup: bool, client: u8) -> bool
    ensures { result ≡ (in_setup && (client == 0)) }
{
    in_setup && client == 0
}

/// Whether a client is among some clients, if there are any.
fn is_among(client: u8, clients: Option<[bool; 8]>) -> bool
    requires small { client < CLIENTS }
    requires length { IfSome clients (λ clients. length clients ≡ CLIENTS) }
    ensures { result ≡ is_among client clients }
{
    match clients {
        Some(clients) => clients[usize::from(client)],
        None => false,
    }
}

impl<'a> Seen<'a> {
    /// No names.
    pub(crate) fn new(alloc: Global) -> Seen<'a>
        ensures { SeesAll result [] }
    {
        Seen {
            clients: NameMap::new(alloc),
            in_setup: true,
        }
    }

    /// The clients that see a name, where there is such a name.
    fn clients_of(&self, name: &'a [u8]) -> Option<[bool; 8]>
        ensures clients { result ≡ clients_of self.now name.now }
        ensures length { IfSome result (λ clients. length clients ≡ CLIENTS) }
    {
        self.clients.get(name)
    }

    /// Whether a client sees a name.
    fn is_visible(&self, client: u8, name: &'a [u8]) -> bool
        requires { client < CLIENTS }
        ensures { result ≡ sees self.now client name.now }
    {
        is_among(client, self.clients_of(name))
    }

    /// Whether a client sees the name that an item uses, if it uses one.
    fn sees_one(&self, client: u8, item: Item<'a>) -> bool
        requires { client < CLIENTS }
        ensures { result ≡ list_all (sees self.now client) (name_in (item_of item.entry)) }
    {
        match item {
            Item::Handle(Some(letters)) => self.is_visible(client, letters.word),
            _ => true,
        }
    }

    /// Whether a client sees each of the names that items use.
    #[tactic(auto, using(crate::proofs::Sight::seen_next))]
    pub(crate) fn sees(&self, client: u8, items: &[Item<'a>]) -> bool
        requires { client < CLIENTS }
        ensures { result ≡ list_all (sees self.now client) (names_in (items_of items.now)) }
    {
        let mut seen = true;
        for item in items {
            seen = seen && self.sees_one(client, *item);
        }
        seen
    }

    /// Takes the line of a client in, with the name that it binds. Says whether the client saw that name already.
    pub(crate) fn take_line(&mut self, client: u8, name: Option<&'a [u8]>) -> Result<bool, NoMemory>
        requires { client < CLIENTS }
        ensures taken { IfOk result (λ taken. taken
            ≡ list_any (sees self.old client) (option_to_list (option_map (λ w. w.now) name.entry))) }
        ensures right { OnOk result ((lines : List Line) (line : Line) → line.client ≡ client
            → line.name ≡ option_map (λ w. w.now) name.entry → SeesAll self.old lines → SeesAll self.new (lines ++ line ∷ [])) }
    {
        let in_setup = stays_setup(self.in_setup, client);
        let taken = self.bind(client, in_setup, name)?;
        self.in_setup = in_setup;
        Ok(taken)
    }

    /// Binds the name of a client's line, in the setup or behind it, if there is one. Says whether the client saw it already.
    fn bind(&mut self, client: u8, in_setup: bool, name: Option<&'a [u8]>) -> Result<bool, NoMemory>
        requires { client < CLIENTS }
        ensures taken { IfOk result (λ taken. taken
            ≡ list_any (sees self.old client) (option_to_list (option_map (λ w. w.now) name.entry))) }
        ensures more { OnOk result ((other : ℕ) (word : List ℕ) → other < CLIENTS
            → sees self.new other word ≡ (sees self.old other word
            || (is_name_in word (option_map (λ w. w.now) name.entry) && (in_setup || (client == other))))) }
    {
        let Some(name) = name else {
            return Ok(false);
        };
        let clients = self.clients_with(client, in_setup, name);
        let before = self.clients.insert(name, clients)?;
        Ok(is_among(client, before))
    }

    /// The clients that see a name once a client binds it, in the setup or behind it.
    fn clients_with(&self, client: u8, in_setup: bool, name: &'a [u8]) -> [bool; 8]
        requires { client < CLIENTS }
        ensures length { length result ≡ CLIENTS }
        ensures seen { (other : ℕ) → other < CLIENTS → slice_index_or result other false
            ≡ (sees self.now other name.now || (in_setup || (client == other))) }
    {
        if in_setup {
            return [true; 8];
        }
        let mut clients = self.clients_of(name).unwrap_or([false; 8]);
        clients[usize::from(client)] = true;
        clients
    }
}
