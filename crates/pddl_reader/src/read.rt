ghost use Rattle.std.specs.Prelude.{◌≡◌, ◌⊎◌, ◌^◌, ◌≤◌, length, Err, IfOk, IfErr, IsOkAnd};
ghost use Rattle.pddl_reader.specs.Forms.{Form, form_of};
ghost use Rattle.pddl_reader.specs.Items.{AreItemsOver};
ghost use Rattle.pddl_reader.specs.Values.{PlainDomain, PlainProblem};
ghost use Rattle.pddl_reader.specs.Spelling.{IsFormOf, IsDomainText, IsProblemText};
ghost use Rattle.pddl_reader.specs.Faults.{IsDocumentFault, IsTextFault};
ghost use Rattle.pddl_reader.specs.declared.kinds.Document.{Document};

use crate::document::{domain, problem};
use crate::faults::PddlFault;
use crate::values::{Domain, Problem};
use pddl_lexer::{TreeList, tokens, tree};
use std::alloc::Global;

/// The tree of the text's words and brackets.
fn text_tree(alloc: Global, text: &[u8]) -> Result<TreeList, PddlFault>
    requires { length text.now ≤ 2 ^ 20 }
    ensures form { IfOk result (λ l. IsFormOf text.now (form_of text.now l)) }
    ensures over { IfOk result (λ l. AreItemsOver text.now l.items.items) }
    ensures few { IfOk result (λ l. length l.items.items ≤ length text.now) }
    ensures fault { IfErr result (λ f. (f ≡ PddlFault.OutOfMemory)
        ⊎ ((document : Document) → IsTextFault document text.now f)) }
    ensures only { (f : Form) → IsFormOf text.now f
        → (result ≡ Err PddlFault.OutOfMemory) ⊎ IsOkAnd result (λ l. f ≡ form_of text.now l) }
    ensures fault_exactly { (document : Document) (f : PddlFault) → IsTextFault document text.now f
        → (result ≡ Err f) ⊎ (result ≡ Err PddlFault.OutOfMemory)
        ⊎ IsOkAnd result (λ l. IsDocumentFault document (form_of text.now l) f) }
{
    let tokens = tokens(alloc, text)?;
    let tree = tree(alloc, text, &tokens)?;
    Ok(tree)
}

/// Reads a domain. The place `at` of a name is the number of bytes of `text` before its word. Faulty
/// bytes come first, then brackets, and then the first faulty item in text order.
pub fn read_domain(alloc: Global, text: &[u8]) -> Result<Domain, PddlFault>
    requires { length text.now ≤ 2 ^ 20 }
    ensures spelled { IfOk result (λ d. IsDomainText text.now d) }
    ensures few_actions { IfOk result (λ d. length d.actions ≤ length text.now) }
    ensures fault { (f : PddlFault) → result ≡ Err f
        → (f ≡ PddlFault.OutOfMemory) ⊎ IsTextFault Document.Domain text.now f }
    ensures exactly { (d : PlainDomain) → IsDomainText text.now d
        → (result ≡ Ok d) ⊎ (result ≡ Err PddlFault.OutOfMemory) }
    ensures fault_exactly { (f : PddlFault) → IsTextFault Document.Domain text.now f
        → (result ≡ Err f) ⊎ (result ≡ Err PddlFault.OutOfMemory) }
{
    let list = text_tree(alloc, text)?;
    domain(alloc, text, list.at, &list.items)
}

/// Reads a problem. The place `at` of a name is the number of bytes of `text` before its word. Faulty
/// bytes come first, then brackets, and then the first faulty item in text order.
pub fn read_problem(alloc: Global, text: &[u8]) -> Result<Problem, PddlFault>
    requires { length text.now ≤ 2 ^ 20 }
    ensures spelled { IfOk result (λ p. IsProblemText text.now p) }
    ensures fault { (f : PddlFault) → result ≡ Err f
        → (f ≡ PddlFault.OutOfMemory) ⊎ IsTextFault Document.Problem text.now f }
    ensures exactly { (p : PlainProblem) → IsProblemText text.now p
        → (result ≡ Ok p) ⊎ (result ≡ Err PddlFault.OutOfMemory) }
    ensures fault_exactly { (f : PddlFault) → IsTextFault Document.Problem text.now f
        → (result ≡ Err f) ⊎ (result ≡ Err PddlFault.OutOfMemory) }
{
    let list = text_tree(alloc, text)?;
    problem(alloc, text, list.at, &list.items)
}
