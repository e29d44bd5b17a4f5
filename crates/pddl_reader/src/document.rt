ghost use Rattle.std.specs.Prelude.{◌≡◌, [], ◌∷◌, ◌++◌, Ok, Err, false, List, map, IfOk, IfErr, OnOk};
ghost use Rattle.pddl_reader.specs.Classes.{section_feature};
ghost use Rattle.pddl_reader.specs.Forms.{word_of, form_at};
ghost use Rattle.pddl_reader.specs.Items.{IsTokenOver, IsItemOver, AreItemsOver, forms_at, IsFaultOf};
ghost use Rattle.pddl_reader.specs.Kept.{KeepsValues, KeepsSections, AddsSection};
ghost use Rattle.pddl_reader.specs.PlainSections.{plain_section};
ghost use Rattle.pddl_reader.specs.Reading.{kind_by, is_repeated, new_kind, section_in, section_at, sections_from, head_in, head_at, document_rest, document_in, domain_in, problem_in};
ghost use Rattle.pddl_reader.specs.Sections.{SectionValue, kind_of, kinds_of};
ghost use Rattle.pddl_reader.specs.Spelling.{document_word};

use crate::classes;
use crate::faults::PddlFault;
use crate::kinds::{Document, SectionKind};
use crate::lists::{first_item, first_word};
use crate::sections::{Section, content, one_name};
use crate::values::{Domain, Literal, Name, Predicate, Problem, Schema, TypedName};
use crate::words::{bytes_of, is_word};
use pddl_lexer::{Item, Token};
use std::alloc::Global;

/// The kind of sections of a domain that a keyword names.
fn domain_kind(text: &[u8], token: Token) -> Option<SectionKind>
    requires { IsTokenOver text.now token }
    ensures { result ≡ kind_by (kinds_of Document.Domain) (word_of text.now token).text }
{
    if is_word(text, token, ":requirements") {
        Some(SectionKind::Requirements)
    } else if is_word(text, token, ":types") {
        Some(SectionKind::Types)
    } else if is_word(text, token, ":constants") {
        Some(SectionKind::Constants)
    } else if is_word(text, token, ":predicates") {
        Some(SectionKind::Predicates)
    } else if is_word(text, token, ":action") {
        Some(SectionKind::Action)
    } else {
        None
    }
}

/// The kind of sections of a problem that a keyword names.
fn problem_kind(text: &[u8], token: Token) -> Option<SectionKind>
    requires { IsTokenOver text.now token }
    ensures { result ≡ kind_by (kinds_of Document.Problem) (word_of text.now token).text }
{
    if is_word(text, token, ":requirements") {
        Some(SectionKind::Requirements)
    } else if is_word(text, token, ":domain") {
        Some(SectionKind::Domain)
    } else if is_word(text, token, ":objects") {
        Some(SectionKind::Objects)
    } else if is_word(text, token, ":init") {
        Some(SectionKind::Init)
    } else if is_word(text, token, ":goal") {
        Some(SectionKind::Goal)
    } else {
        None
    }
}

/// The kind of sections of the document that a keyword names.
fn kind_by(document: Document, text: &[u8], token: Token) -> Option<SectionKind>
    requires { IsTokenOver text.now token }
    ensures { result ≡ kind_by (kinds_of document) (word_of text.now token).text }
{
    match document {
        Document::Domain => domain_kind(text, token),
        Document::Problem => problem_kind(text, token),
    }
}

/// The values of the sections that are read so far. Requirements and the goal have none.
#[derive(Drop)]
struct Values {
    types: Vec<TypedName>,
    constants: Vec<TypedName>,
    predicates: Vec<Predicate>,
    actions: Vec<Schema>,
    domain: Option<Name>,
    objects: Vec<TypedName>,
    init: Option<Vec<Literal>>,
}

impl Values {
    fn new(alloc: Global) -> Self
        ensures { KeepsValues [] result }
    {
        Values {
            types: Vec::new(alloc),
            constants: Vec::new(alloc),
            predicates: Vec::new(alloc),
            actions: Vec::new(alloc),
            domain: None,
            objects: Vec::new(alloc),
            init: None,
        }
    }

    /// Keeps the value of a section, which is the first of its kind unless it is an action.
    fn put(&mut self, section: Section) -> Result<(), PddlFault>
        ensures kept { OnOk result ((seen : List SectionValue) → KeepsValues seen self.old
            → is_repeated (kind_of (plain_section section)) (map kind_of seen) ≡ false
            → KeepsValues (seen ++ plain_section section ∷ []) self.new) }
        ensures fault { IfErr result (λ f. f ≡ PddlFault.OutOfMemory) }
    {
        match section {
            Section::Requirements | Section::Goal => Ok(()),
            Section::Types(names) => {
                self.types = names;
                Ok(())
            }
            Section::Constants(names) => {
                self.constants = names;
                Ok(())
            }
            Section::Predicates(predicates) => {
                self.predicates = predicates;
                Ok(())
            }
            Section::Action(action) => {
                self.actions.push(action)?;
                Ok(())
            }
            Section::Domain(name) => {
                self.domain = Some(name);
                Ok(())
            }
            Section::Objects(names) => {
                self.objects = names;
                Ok(())
            }
            Section::Init(atoms) => {
                self.init = Some(atoms);
                Ok(())
            }
        }
    }
}

/// The sections of a document that are read so far.
#[derive(Drop)]
struct Sections {
    /// The kinds that may not come again.
    given: Vec<SectionKind>,
    values: Values,
}

impl Sections {
    fn new(alloc: Global) -> Self
        ensures { KeepsSections [] result }
    {
        Sections {
            given: Vec::new(alloc),
            values: Values::new(alloc),
        }
    }

    /// Whether a section of the kind may not come any more.
    fn is_repeated(&self, kind: SectionKind) -> bool
        ensures { result ≡ is_repeated kind self.now.given.items }
    {
        kind != SectionKind::Action && self.given.contains(&kind)
    }

    /// The kind of sections that the keyword names, of which one may come.
    fn new_kind(
        &self,
        text: &[u8],
        document: Document,
        at: u32,
        token: Token,
    ) -> Result<SectionKind, PddlFault>
        requires { IsTokenOver text.now token }
        ensures read { IfOk result (λ kind.
            new_kind (section_feature (word_of text.now token).text)
            (kind_by (kinds_of document) (word_of text.now token).text) self.now.given.items at
            (word_of text.now token) ≡ Ok kind) }
        ensures fresh { IfOk result (λ kind. is_repeated kind self.now.given.items ≡ false) }
        ensures fault { IfErr result (λ f.
            new_kind (section_feature (word_of text.now token).text)
            (kind_by (kinds_of document) (word_of text.now token).text) self.now.given.items at
            (word_of text.now token) ≡ Err f) }
    {
        if let Some(feature) = classes::section_feature(bytes_of(text, token)) {
            return Err(PddlFault::Unsupported(at, feature));
        }
        match kind_by(document, text, token) {
            None => Err(PddlFault::Shape(token.from)),
            Some(kind) => {
                if self.is_repeated(kind) {
                    Err(PddlFault::DoubledSection(at))
                } else {
                    Ok(kind)
                }
            }
        }
    }

    /// Notes that a section of the kind was read.
    fn give(&mut self, kind: SectionKind) -> Result<(), PddlFault>
        ensures given { OnOk result ((other : SectionKind) (kinds : List SectionKind)
            → is_repeated other self.old.given.items ≡ is_repeated other kinds
            → is_repeated other self.new.given.items ≡ is_repeated other (kinds ++ kind ∷ [])) }
        ensures values { OnOk result (self.new.values ≡ self.old.values) }
        ensures fault { IfErr result (λ f. f ≡ PddlFault.OutOfMemory) }
    {
        if kind == SectionKind::Action {
            return Ok(());
        }
        self.given.push(kind)?;
        Ok(())
    }

    /// Reads the section of the list at the place.
    fn take_list(
        &mut self,
        alloc: Global,
        text: &[u8],
        document: Document,
        at: u32,
        items: &[Item],
    ) -> Result<(), PddlFault>
        requires { AreItemsOver text.now items.now }
        ensures read { OnOk result ((v : SectionValue)
            × (section_in document self.old.given.items at (forms_at text.now items.now) ≡ Ok v)
            × AddsSection self.old v self.new) }
        ensures fault { IfErr result
            (IsFaultOf (section_in document self.old.given.items at (forms_at text.now items.now))) }
    {
        let (token, rest) = first_word(at, items)?;
        let kind = self.new_kind(text, document, at, token)?;
        let section = content(alloc, text, kind, at, rest)?;
        self.values.put(section)?;
        self.give(kind)?;
        Ok(())
    }

    /// Reads a section.
    fn take(
        &mut self,
        alloc: Global,
        text: &[u8],
        document: Document,
        item: &Item,
    ) -> Result<(), PddlFault>
        requires { IsItemOver text.now item.now }
        ensures read { OnOk result ((v : SectionValue)
            × (section_at document self.old.given.items (form_at text.now item.now) ≡ Ok v)
            × AddsSection self.old v self.new) }
        ensures fault { IfErr result
            (IsFaultOf (section_at document self.old.given.items (form_at text.now item.now))) }
    {
        match item {
            Item::Word(token) => Err(PddlFault::Shape(token.from)),
            Item::List(list) => self.take_list(alloc, text, document, list.at, &list.items),
        }
    }
}

/// Reads the sections of a document.
fn read_sections(
    alloc: Global,
    text: &[u8],
    document: Document,
    items: &[Item],
) -> Result<Values, PddlFault>
    requires { AreItemsOver text.now items.now }
    ensures read { IfOk result (λ v. (seen : List SectionValue)
        × (sections_from document [] (forms_at text.now items.now) ≡ Ok seen) × KeepsValues seen v) }
    ensures fault { IfErr result
        (IsFaultOf (sections_from document [] (forms_at text.now items.now))) }
{
    let mut sections = Sections::new(alloc);
    for item in items {
        sections.take(alloc, text, document, item)?;
    }
    Ok(sections.values)
}

/// The word behind which the name of a document stands.
fn document_word(document: Document) -> &'static str
    ensures { result.now ≡ document_word document }
{
    match document {
        Document::Domain => "domain",
        Document::Problem => "problem",
    }
}

/// Reads the name of a document in the list at the place.
fn head_in(
    alloc: Global,
    text: &[u8],
    document: Document,
    at: u32,
    items: &[Item],
) -> Result<Name, PddlFault>
    requires { AreItemsOver text.now items.now }
    ensures read { IfOk result
        (λ name. head_in document at (forms_at text.now items.now) ≡ Ok name) }
    ensures fault { IfErr result
        (IsFaultOf (head_in document at (forms_at text.now items.now))) }
{
    let (token, rest) = first_word(at, items)?;
    if !is_word(text, token, document_word(document)) {
        return Err(PddlFault::Shape(token.from));
    }
    let name = one_name(alloc, text, at, rest)?;
    Ok(name)
}

/// Reads the name of a document.
fn head(alloc: Global, text: &[u8], document: Document, item: &Item) -> Result<Name, PddlFault>
    requires { IsItemOver text.now item.now }
    ensures read { IfOk result (λ name. head_at document (form_at text.now item.now) ≡ Ok name) }
    ensures fault { IfErr result (IsFaultOf (head_at document (form_at text.now item.now))) }
{
    match item {
        Item::Word(token) => Err(PddlFault::Shape(token.from)),
        Item::List(list) => head_in(alloc, text, document, list.at, &list.items),
    }
}

/// Reads the name and the sections of the document at the place.
fn document_rest(
    alloc: Global,
    text: &[u8],
    document: Document,
    at: u32,
    items: &[Item],
) -> Result<(Name, Values), PddlFault>
    requires { AreItemsOver text.now items.now }
    ensures read { IfOk result (λ x. (seen : List SectionValue)
        × (document_rest document at (forms_at text.now items.now) ≡ Ok (x.0, seen))
        × KeepsValues seen x.1) }
    ensures fault { IfErr result
        (IsFaultOf (document_rest document at (forms_at text.now items.now))) }
{
    let (first, rest) = first_item(at, items)?;
    let name = head(alloc, text, document, first)?;
    let values = read_sections(alloc, text, document, rest)?;
    Ok((name, values))
}

/// Reads the document in the list at the place: its name and its sections.
fn read_document(
    alloc: Global,
    text: &[u8],
    document: Document,
    at: u32,
    items: &[Item],
) -> Result<(Name, Values), PddlFault>
    requires { AreItemsOver text.now items.now }
    ensures read { IfOk result (λ x. (seen : List SectionValue)
        × (document_in document at (forms_at text.now items.now) ≡ Ok (x.0, seen))
        × KeepsValues seen x.1) }
    ensures fault { IfErr result
        (IsFaultOf (document_in document at (forms_at text.now items.now))) }
{
    let (token, rest) = first_word(at, items)?;
    if !is_word(text, token, "define") {
        return Err(PddlFault::Shape(token.from));
    }
    document_rest(alloc, text, document, at, rest)
}

/// Reads the domain in the list at the place.
pub(crate) fn domain(
    alloc: Global,
    text: &[u8],
    at: u32,
    items: &[Item],
) -> Result<Domain, PddlFault>
    requires { AreItemsOver text.now items.now }
    ensures read { IfOk result (λ d. domain_in at (forms_at text.now items.now) ≡ Ok d) }
    ensures fault { IfErr result (IsFaultOf (domain_in at (forms_at text.now items.now))) }
{
    let (name, values) = read_document(alloc, text, Document::Domain, at, items)?;
    Ok(Domain {
        name,
        types: values.types,
        constants: values.constants,
        predicates: values.predicates,
        actions: values.actions,
    })
}

/// Reads the problem in the list at the place.
pub(crate) fn problem(
    alloc: Global,
    text: &[u8],
    at: u32,
    items: &[Item],
) -> Result<Problem, PddlFault>
    requires { AreItemsOver text.now items.now }
    ensures read { IfOk result (λ p. problem_in at (forms_at text.now items.now) ≡ Ok p) }
    ensures fault { IfErr result (IsFaultOf (problem_in at (forms_at text.now items.now))) }
{
    let (name, values) = read_document(alloc, text, Document::Problem, at, items)?;
    let Values {
        domain,
        objects,
        init,
        ..
    } = values;
    match (domain, init) {
        (Some(domain), Some(init)) => Ok(Problem {
            name,
            domain,
            objects,
            init,
        }),
        _ => Err(PddlFault::Shape(at)),
    }
}
