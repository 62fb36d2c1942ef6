//! What the lines of a plan say that were read so far, and what one more line adds.

ghost use Rattle.std.specs.Prelude.{◌≡◌, ℕ, List, [], ◌∷◌, ◌<◌, map, length, position, slice_get, string_bytes, IfOk, IfErr, OnOk, Some, option_map};
ghost use Rattle.std.specs.Str.{bytes_eq};
ghost use Rattle.std.specs.Option.{option_and_then, option_copied};
ghost use Rattle.relay_conf.specs.Examined.{words_of};
ghost use Rattle.relay_conf.specs.PatternWords.{AreOfWord};
ghost use Rattle.relay_conf.specs.Relays.{AreOfWords};
ghost use Rattle.relay_net.specs.Network.{node_of, source_of_port};
ghost use Rattle.loss_rules.specs.Sites.{rule_at};
ghost use Rattle.plan_lines.specs.Forms.{a_relay, a_client, a_label, a_reach, form_of as form_by, line_form};
ghost use Rattle.plan_lines.specs.Views.{form_view};
ghost use Rattle.plan_lines.specs.Plans.{texts, empty_plan, scope_name as name_of_scope, scope_of as meant_scope, scope_at, IsRelayOfText, Adds};
ghost use Rattle.plan_lines.specs.Faults.{IsTextFault, IsPatternFault, Refuses};
ghost use Rattle.plan_lines.specs.Drafts.{draft_of, HasItsConf};

use crate::error::PlanError;
use crate::form::{Form, form_of, relay_number};
use crate::relays::Relays;
use conf_text::ConfError;
use conf_values::whole_number;
use loss_rules::{Duty, Label, Reach, RelayLine};
use relay_conf::{Relay, RelayError, Scope, Source, words};
use relay_net::{Client, Node};
use std::alloc::Allocator;
use std::str;
use tag_pattern::{Pattern, PatternError, Plain};

/// What the lines of a plan say that were read so far, each in their order.
#[derive(Drop)]
pub(crate) struct Draft<A: Allocator> {
    pub relays: Relays<A>,
    pub relay_lines: Vec<RelayLine<A>, A>,
    pub clients: Vec<Client<A>, A>,
    pub client_lines: Vec<usize, A>,
    pub labels: Vec<Label<A>, A>,
    pub reaches: Vec<Reach<A>, A>,
    pub duty: Duty,
}

impl<A: Allocator + Copy> Draft<A> {
    /// Nothing was read.
    pub fn new(alloc: A) -> Draft<A>
        ensures { draft_of result ≡ empty_plan A }
    {
        Draft {
            relays: Relays::new(alloc),
            relay_lines: Vec::new(alloc),
            clients: Vec::new(alloc),
            client_lines: Vec::new(alloc),
            labels: Vec::new(alloc),
            reaches: Vec::new(alloc),
            duty: Duty::Any,
        }
    }

    /// Adds what the line of this number says.
    pub fn add(
        &mut self,
        alloc: A,
        line: usize,
        text: &[u8],
        confs: &[Vec<u8, A>],
    ) -> Result<(), PlanError>
        requires { HasItsConf (line_form text.now) (length self.old.relays) (length confs.now) }
        ensures adds { OnOk result
            (Adds (texts confs.now) line (line_form text.now) (draft_of self.old)
            (draft_of self.new)) }
        ensures refuses { IfErr result
            (Refuses (texts confs.now) line (line_form text.now) (draft_of self.old)) }
    {
        match str::from_utf8(text) {
            Ok(text) => self.add_text(alloc, line, text, confs),
            Err(_) => Err(PlanError::BadLine(line)),
        }
    }

    // Adds what a line that is UTF-8 says.
    fn add_text(
        &mut self,
        alloc: A,
        line: usize,
        text: &str,
        confs: &[Vec<u8, A>],
    ) -> Result<(), PlanError>
        requires { HasItsConf (form_by (words_of text.now)) (length self.old.relays)
            (length confs.now) }
        ensures adds { OnOk result
            (Adds (texts confs.now) line (form_by (words_of text.now)) (draft_of self.old)
            (draft_of self.new)) }
        ensures refuses { IfErr result
            (Refuses (texts confs.now) line (form_by (words_of text.now)) (draft_of self.old)) }
    {
        let fields = words(alloc, text)?;
        self.add_form(alloc, line, form_of(&fields), confs)
    }

    // Adds what a line of this form says.
    fn add_form(
        &mut self,
        alloc: A,
        line: usize,
        form: Form,
        confs: &[Vec<u8, A>],
    ) -> Result<(), PlanError>
        requires { HasItsConf (form_view form) (length self.old.relays) (length confs.now) }
        ensures adds { OnOk result
            (Adds (texts confs.now) line (form_view form.entry) (draft_of self.old)
            (draft_of self.new)) }
        ensures refuses { IfErr result
            (Refuses (texts confs.now) line (form_view form.entry) (draft_of self.old)) }
    {
        match form {
            Form::Nothing => Ok(()),
            Form::Relay {
                number,
                host,
                folder,
                conf: _,
            } => self.add_relay(alloc, line, number, host, folder, confs),
            Form::Client {
                number,
                port,
                patterns,
            } => self.add_client(alloc, line, number, port, patterns),
            Form::Label {
                number,
                scope,
                patterns,
            } => self.add_label(alloc, line, number, scope, patterns),
            Form::Reach {
                number,
                scope,
                index,
                patterns,
            } => self.add_reach(alloc, line, number, scope, index, patterns),
            Form::Duty { duty } => {
                self.duty = duty;
                Ok(())
            }
            Form::Bad => Err(PlanError::BadLine(line)),
        }
    }

    // Adds a relay, whose configuration is that of its place among the relays.
    fn add_relay(
        &mut self,
        alloc: A,
        line: usize,
        number: &str,
        host: &str,
        folder: &str,
        confs: &[Vec<u8, A>],
    ) -> Result<(), PlanError>
        requires { length self.old.relays < length confs.now }
        ensures adds { OnOk result
            ((conf : List ℕ) → Adds (texts confs.now) line
            (a_relay number.now host.now folder.now conf) (draft_of self.old) (draft_of self.new)) }
        ensures refuses { IfErr result
            (λ e. (conf : List ℕ)
            → Refuses (texts confs.now) line (a_relay number.now host.now folder.now conf)
            (draft_of self.old) e) }
    {
        let Some(number) = relay_number(number) else {
            return Err(PlanError::BadNumber(line));
        };
        let relay = relay_of_text(alloc, line, &confs[self.relays.nodes().len()])?;
        let host = String::from_str(alloc, host)?;
        let folder = String::from_str(alloc, folder)?;
        self.relays.add(Node {
            number,
            host,
            relay,
        })?;
        self.relay_lines.push(RelayLine { folder, line })?;
        Ok(())
    }

    // Adds a client, whose relay has a source of its port.
    fn add_client(
        &mut self,
        alloc: A,
        line: usize,
        number: &str,
        port: &str,
        patterns: &[&str],
    ) -> Result<(), PlanError>
        ensures adds { OnOk result
            ((confs : List (List ℕ))
            → Adds confs line (a_client number.now port.now (map (λ word. word.now) patterns.now))
            (draft_of self.old) (draft_of self.new)) }
        ensures refuses { IfErr result
            (λ e. (confs : List (List ℕ))
            → Refuses confs line
            (a_client number.now port.now (map (λ word. word.now) patterns.now))
            (draft_of self.old) e) }
    {
        let Some(relay) = relay_number(number) else {
            return Err(PlanError::BadNumber(line));
        };
        let Some(wanted) = whole_number(port.as_bytes()) else {
            return Err(PlanError::BadNumber(line));
        };
        let Some(port) = self.source_port(relay, wanted) else {
            return Err(PlanError::NoSuch(line));
        };
        let patterns = patterns_of(alloc, line, patterns)?;
        self.clients.push(Client {
            relay,
            port,
            patterns,
        })?;
        self.client_lines.push(line)?;
        Ok(())
    }

    // Adds tags that may reach a scope.
    fn add_label(
        &mut self,
        alloc: A,
        line: usize,
        number: &str,
        scope: &str,
        patterns: &[&str],
    ) -> Result<(), PlanError>
        ensures adds { OnOk result
            ((confs : List (List ℕ))
            → Adds confs line (a_label number.now scope.now (map (λ word. word.now) patterns.now))
            (draft_of self.old) (draft_of self.new)) }
        ensures refuses { IfErr result
            (λ e. (confs : List (List ℕ))
            → Refuses confs line
            (a_label number.now scope.now (map (λ word. word.now) patterns.now))
            (draft_of self.old) e) }
    {
        let Some(number) = relay_number(number) else {
            return Err(PlanError::BadNumber(line));
        };
        let Some(place) = self.relays.place(number) else {
            return Err(PlanError::NoSuch(line));
        };
        let Some(scope) = self.scope(place, scope) else {
            return Err(PlanError::NoSuch(line));
        };
        let patterns = patterns_of(alloc, line, patterns)?;
        self.labels.push(Label {
            place,
            scope,
            patterns,
            line,
        })?;
        Ok(())
    }

    // Adds tags that may reach a match.
    fn add_reach(
        &mut self,
        alloc: A,
        line: usize,
        number: &str,
        scope: &str,
        index: &str,
        patterns: &[&str],
    ) -> Result<(), PlanError>
        ensures adds { OnOk result
            ((confs : List (List ℕ))
            → Adds confs line (a_reach number.now scope.now index.now
            (map (λ word. word.now) patterns.now)) (draft_of self.old) (draft_of self.new)) }
        ensures refuses { IfErr result
            (λ e. (confs : List (List ℕ))
            → Refuses confs line
            (a_reach number.now scope.now index.now (map (λ word. word.now) patterns.now))
            (draft_of self.old) e) }
    {
        let Some(number) = relay_number(number) else {
            return Err(PlanError::BadNumber(line));
        };
        let Some(index) = whole_number(index.as_bytes()) else {
            return Err(PlanError::BadNumber(line));
        };
        let Some(place) = self.relays.place(number) else {
            return Err(PlanError::NoSuch(line));
        };
        let Some(scope) = self.scope(place, scope) else {
            return Err(PlanError::NoSuch(line));
        };
        let Some(rule) = self.rule(place, scope, index) else {
            return Err(PlanError::NoSuch(line));
        };
        let patterns = patterns_of(alloc, line, patterns)?;
        self.reaches.push(Reach {
            place,
            scope,
            rule,
            patterns,
            line,
        })?;
        Ok(())
    }

    // The port, where the relay that the number means has a source of it.
    fn source_port(&self, number: u32, port: u64) -> Option<u16>
        ensures { result ≡ option_map
            (λ source. source.port)
            (option_and_then (λ node. source_of_port node.relay port)
            (node_of self.now.relays number)) }
    {
        match self.relays.node(number) {
            None => None,
            Some(node) => port_of_source(&node.relay, port),
        }
    }

    // The place of the scope that the word means, in the relay at this place.
    fn scope(&self, place: usize, word: &str) -> Option<usize>
        ensures { result ≡ scope_at self.now.relays place word.now }
    {
        match self.relays.nodes().get(place) {
            None => None,
            Some(node) => scope_of(&node.relay, word),
        }
    }

    // The place of the match with this index, where that scope has it.
    fn rule(&self, place: usize, scope: usize, index: u64) -> Option<usize>
        ensures { result ≡ option_map
            (λ _. index) (rule_at (draft_of self.now).net place scope index) }
    {
        match self.relays.nodes().get(place) {
            None => None,
            Some(node) => rule_of(&node.relay, scope, index),
        }
    }
}

// The place of the match with this index, where that scope of the relay has it.
fn rule_of<A: Allocator>(relay: &Relay<A>, scope: usize, index: u64) -> Option<usize>
    ensures { result ≡ option_map (λ _. index)
        (option_and_then (λ found. slice_get found.matches.items index)
        (slice_get relay.now.scopes.items scope)) }
{
    match relay.scopes.get(scope) {
        None => None,
        Some(found) => rule_in(found, index),
    }
}

// The place of the match with this index, where the scope has it.
fn rule_in<A: Allocator>(scope: &Scope<A>, index: u64) -> Option<usize>
    ensures { result ≡ option_map (λ _. index) (slice_get scope.now.matches.items index) }
{
    let place = index as usize;
    match scope.matches.get(place) {
        None => None,
        Some(_) => Some(place),
    }
}

// The port, where the relay has a source of it.
fn port_of_source<A: Allocator>(relay: &Relay<A>, port: u64) -> Option<u16>
    ensures { result ≡ option_map (λ source. source.port) (source_of_port relay.now port) }
{
    match source_of(relay, port) {
        None => None,
        Some(source) => Some(source.port),
    }
}

// The first source of the relay with this port.
fn source_of<A: Allocator>(relay: &Relay<A>, port: u64) -> Option<&Source<A>>
    ensures { option_copied result ≡ source_of_port relay.now port }
{
    relay
        .sources
        .iter()
        .find(|source| u64::from(source.port) == port)
}

/// The place of the scope that a word means, in the relay: of equal names the first; `.` is the
/// main scope.
pub fn scope_of<A: Allocator>(relay: &Relay<A>, word: &str) -> Option<usize>
    ensures { result ≡ meant_scope relay.now word.now }
{
    scope_in(relay, scope_name(word))
}

// The name of the scope that a word means: `.` is the main one, which has none.
fn scope_name(word: &str) -> &str
    ensures { result.now ≡ name_of_scope word.now }
{
    if word == "." { "" } else { word }
}

// The place of the first scope of this name.
fn scope_in<A: Allocator>(relay: &Relay<A>, name: &str) -> Option<usize>
    ensures { result ≡ position
        (λ scope. bytes_eq (string_bytes scope.name) name.now) relay.now.scopes.items }
{
    relay.scopes.iter().position(|scope| is_named(scope, name))
}

// Whether the scope has this name.
fn is_named<A: Allocator>(scope: &Scope<A>, name: &str) -> bool
    ensures { result ≡ bytes_eq (string_bytes scope.now.name) name.now }
{
    scope.name.as_str() == name
}

// The relay that a configuration describes, which the line of this number names.
fn relay_of_text<A: Allocator + Copy>(
    alloc: A,
    line: usize,
    text: &[u8],
) -> Result<Relay<A>, PlanError>
    ensures relay { IfOk result (IsRelayOfText text.now) }
    ensures fault { IfErr result (IsTextFault line text.now) }
{
    let elements = match conf_text::read(alloc, text) {
        Ok(elements) => elements,
        Err(ConfError::Memory) => return Err(PlanError::Memory),
        Err(ConfError::Fault(fault)) => return Err(PlanError::BadText(line, fault)),
    };
    match Relay::read(alloc, &elements) {
        Ok(relay) => Ok(relay),
        Err(RelayError::Memory) => Err(PlanError::Memory),
        Err(RelayError::Fault(fault)) => Err(PlanError::BadRelay(line, fault)),
    }
}

// The plain patterns for which the words stand, which are those of the line of this number.
fn patterns_of<A: Allocator + Copy>(
    alloc: A,
    line: usize,
    words: &[&str],
) -> Result<Vec<Plain<A>, A>, PlanError>
    ensures patterns { IfOk result
        (λ plains. AreOfWords (map (λ word. word.now) words.now) plains.items) }
    ensures fault { IfErr result (IsPatternFault line (map (λ word. word.now) words.now)) }
{
    let mut plains = Vec::new(alloc);
    for word in words {
        match patterns_of_word(alloc, line, word) {
            Ok(mut more) => plains.append(&mut more)?,
            Err(error) => return Err(error),
        }
    }
    Ok(plains)
}

// The plain patterns for which one word stands.
fn patterns_of_word<A: Allocator + Copy>(
    alloc: A,
    line: usize,
    word: &str,
) -> Result<Vec<Plain<A>, A>, PlanError>
    ensures patterns { IfOk result (λ plains. AreOfWord word.now plains.items) }
    ensures fault { IfErr result (IsPatternFault line (word.now ∷ [])) }
{
    match Pattern::read(alloc, word) {
        Ok(plains) => Ok(plains),
        Err(PatternError::Memory) => Err(PlanError::Memory),
        Err(_) => Err(PlanError::BadPattern(line)),
    }
}
