//! The drafts of all nodes, or the first refusal of nodes by themselves.
ghost use Rattle.std.specs.Prelude.{◌≡◌, ◌≢◌, ◌++◌, ◌∷◌, [], None, Some, IfOk, IfErr, OnOk, map, position};
ghost use Rattle.mg_config.specs.Config.{node_view};
ghost use Rattle.mg_check.specs.Drafts.{drafts, node_refusal};
ghost use Rattle.mg_check.specs.DraftView.{drafts_view};
ghost use Rattle.mg_check.specs.Code.Choices.{choices_view};
ghost use Rattle.mg_check.specs.Code.Judged.{AreJudged, draft_in, wrong_in, fault_by, is_wrong};

use crate::choosing::{Choice, check_boxes, check_known, choices_of, number_of, stock_of};
use crate::draft::Draft;
use crate::fault::CheckFault;
use crate::node_draft::{Wrong, judged};
use mg_calc::OuterShape;
use mg_config::NodeConfig;
use mg_value::MgText;
use std::alloc::{AllocError, Global};

/// The drafts of the nodes with which nothing is wrong, and for each node what is wrong with it, if anything is.
#[derive(Drop)]
pub struct NodeDrafts<'a> {
    pub drafts: Vec<Draft<'a>>,
    pub wrongs: Vec<Option<Wrong>>,
}

fn put<'a>(
    node_drafts: &mut NodeDrafts<'a>,
    answer: Result<Draft<'a>, Wrong>,
) -> Result<(), AllocError>
    ensures drafts { OnOk result (drafts_view node_drafts.new.drafts.items ≡ drafts_view node_drafts.old.drafts.items ++ draft_in answer.entry) }
    ensures wrongs { OnOk result (node_drafts.new.wrongs.items ≡ node_drafts.old.wrongs.items ++ wrong_in answer.entry ∷ []) }
{
    match answer {
        Ok(draft) => {
            node_drafts.drafts.push(draft)?;
            node_drafts.wrongs.push(None)?;
            Ok(())
        }
        Err(wrong) => {
            node_drafts.wrongs.push(Some(wrong))?;
            Ok(())
        }
    }
}

fn judge<'a>(
    alloc: Global,
    outers: &[OuterShape],
    choices: &[Choice<'a>],
) -> Result<NodeDrafts<'a>, AllocError>
    ensures { IfOk result (λ node_drafts. AreJudged node_drafts outers.now (choices_view choices.now)) }
{
    let mut node_drafts = NodeDrafts {
        drafts: Vec::new(alloc),
        wrongs: Vec::new(alloc),
    };
    for choice in choices {
        put(
            &mut node_drafts,
            judged(alloc, outers, choice.node, choice.kind)?,
        )?;
    }
    Ok(node_drafts)
}

fn first_with(wrongs: &[Option<Wrong>], wrong: Wrong) -> Option<usize>
    ensures { result ≡ position (is_wrong wrong) wrongs.now }
{
    for (place, found) in wrongs.iter().enumerate() {
        if *found == Some(wrong) {
            return Some(place);
        }
    }
    None
}

fn check_wrongs(alloc: Global, wrongs: &[Option<Wrong>]) -> Result<(), CheckFault>
    ensures ok { OnOk result (fault_by wrongs.now ≡ None) }
    ensures err { IfErr result (λ fault. fault ≢ CheckFault.OutOfMemory → fault_by wrongs.now ≡ Some fault) }
{
    if let Some(place) = first_with(wrongs, Wrong::Ports) {
        let node = number_of(place)?;
        return Err(CheckFault::BadPorts { node });
    }
    if let Some(place) = first_with(wrongs, Wrong::Options) {
        let node = number_of(place)?;
        return Err(CheckFault::BadOptions { node });
    }
    if let Some(place) = first_with(wrongs, Wrong::Policy) {
        let node = number_of(place)?;
        let field = MgText::new(alloc, "input_stream_handler")?;
        return Err(CheckFault::Unsupported { node, field });
    }
    Ok(())
}

/// Returns the drafts of nodes, or the first refusal in the order of `CheckFault`; of one cause the first node is refused.
pub(crate) fn drafts_of<'a>(
    alloc: Global,
    nodes: &'a [NodeConfig],
    outers: &[OuterShape],
) -> Result<Vec<Draft<'a>>, CheckFault>
    ensures ok { IfOk result (λ list. (node_refusal outers.now (map node_view nodes.now) ≡ None) × (drafts_view list.items ≡ drafts outers.now (map node_view nodes.now))) }
    ensures err { IfErr result (λ fault. fault ≢ CheckFault.OutOfMemory → node_refusal outers.now (map node_view nodes.now) ≡ Some fault) }
{
    let stock = stock_of(alloc, outers)?;
    check_known(nodes, &stock)?;
    let choices = choices_of(alloc, nodes, &stock)?;
    check_boxes(alloc, nodes, &stock, &choices.wanted)?;
    let node_drafts = judge(alloc, outers, choices.list.as_slice())?;
    check_wrongs(alloc, node_drafts.wrongs.as_slice())?;
    Ok(node_drafts.drafts)
}
