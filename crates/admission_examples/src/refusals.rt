//! Templates that are refused: each code with its path, and beside the next one.
use crate::admitting::Admitted;
use crate::cases::{Case, wrong_among};
use std::test::Fail;

const REFUSED: &[Case] = &[
    (
        "'resources':{'a':{'type':'Q'}}",
        "{}",
        "A01 ['resources','a','type']",
    ),
    (
        "'resources':{'a':{'type':'Box','external_id':null}}",
        "{}",
        "A08 ['resources','a','external_id']",
    ),
    (
        "'resources':{'a':{'type':'Box','deletion_policy':'Snapshot'}}",
        "{}",
        "A08 ['resources','a','deletion_policy']",
    ),
    (
        "'resources':{'a':{'type':'Box','deletion_policy':'snapshot','external_id':1}}",
        "{}",
        "A08 ['resources','a','deletion_policy']",
    ),
    (
        "'resources':{'a':{'type':'Box','update_policy':{'x':1}}}",
        "{}",
        "A08 ['resources','a','update_policy']",
    ),
    (
        "'resources':{'a':{'type':'Box','update_policy':{'x':1},'properties':{'size':[1,{'yaql':1}]}}}",
        "{}",
        "A08 ['resources','a','properties','size',1]",
    ),
    (
        "'resources':{'a':{'type':'Box','condition':{'equals':[1,{'make_url':1}]},'deletion_policy':'Snapshot'}}",
        "{}",
        "A08 ['resources','a','condition','equals',1]",
    ),
    (
        "'resources':{'a':{'type':'Box','properties':{'size':{'Fn::Join':1}}}}",
        "{}",
        "A08 ['resources','a','properties','size']",
    ),
    (
        "'resources':{'a':{'type':'Box','properties':{'size':{'Fn::Join':1,'x':2}}}}",
        "{}",
        "a:Box f@F g@G ",
    ),
    (
        "'resources':{'a':{'type':'Box','properties':{'size':{'Ref':1}}}}",
        "{}",
        "a:Box f@F g@G ",
    ),
    (
        "'resources':{'a':{'type':'Box','properties':{'size':{'repeat':{'template':{'yaql':1},'for_each':{},\
        'permutations':false}}}}}",
        "{}",
        "A08 ['resources','a','properties','size']",
    ),
    (
        "'resources':{'a':{'type':'Box','properties':{'size':{'repeat':{'template':{'resource_facade':1},\
        'for_each':{}}}}}}",
        "{}",
        "A08 ['resources','a','properties','size','repeat','template']",
    ),
    (
        "'resources':{'a':{'type':'Box','properties':{'size':{'str_replace':{'template':'x','params':\
        {'str_replace_vstrict':1}}}}}}",
        "{}",
        "A08 ['resources','a','properties','size','str_replace','params']",
    ),
    (
        "'resources':{'a':{'type':'Box','properties':{'yaql':1}}}",
        "{}",
        "A05 ['resources','a','properties','yaql']",
    ),
    (
        "'resources':{'n':{'type':'Net','properties':{'cidr':1}}}",
        "{}",
        "A06 ['resources','n','properties']",
    ),
    (
        "'resources':{'n':{'type':'Net'}}",
        "{}",
        "A06 ['resources','n','properties']",
    ),
    (
        "'resources':{'n':{'type':'Net','properties':{'cidr':1,'more':1}}}",
        "{}",
        "A05 ['resources','n','properties','more']",
    ),
    (
        "'resources':{'n':{'type':'Net','external_id':1,'properties':{'cidr':1,'more':1}}}",
        "{}",
        "A08 ['resources','n','external_id']",
    ),
    (
        "'resources':{'n':{'type':'Q','external_id':1}}",
        "{}",
        "A01 ['resources','n','type']",
    ),
    (
        "'resources':{'a':{'type':'Box','depends_on':'x'}}",
        "{}",
        "A02 ['resources','a','depends_on']",
    ),
    (
        "'resources':{'a':{'type':'Box','depends_on':['a','x']}}",
        "{}",
        "A02 ['resources','a','depends_on',1]",
    ),
    (
        "'resources':{'a':{'type':'Box','depends_on':'x','properties':{'size':{'get_resource':'x'}}}}",
        "{}",
        "A02 ['resources','a','properties','size']",
    ),
    (
        "'resources':{'a':{'type':'Box','properties':{'link':{'get_attr':['x','y']},'size':{'get_file':'h'}}}}",
        "{}",
        "A02 ['resources','a','properties','link']",
    ),
    (
        "'resources':{'a':{'type':'Box','properties':{'size':{'get_file':'h'}}}}",
        "{}",
        "A02 ['resources','a','properties','size']",
    ),
    (
        "'resources':{'a':{'type':'Box','condition':{'equals':[1,{'if':[true,1,{'get_file':'h'}]}]},'properties':\
        {'size':{'get_file':'h'}}}}",
        "{}",
        "A02 ['resources','a','condition','equals',1,'if',2]",
    ),
    (
        "'resources':{'n':{'type':'Net','depends_on':'x'}}",
        "{}",
        "A06 ['resources','n','properties']",
    ),
    (
        "'resources':{'a':{'type':'Box','properties':{'size':{'get_attr':['b','colour']}}},'b':{'type':'Box'}}",
        "{}",
        "A03 ['resources','a','properties','size']",
    ),
    (
        "'resources':{'a':{'type':'Box','depends_on':'x','properties':{'size':{'get_attr':['b','colour']}}},'b':\
        {'type':'Box'}}",
        "{}",
        "A02 ['resources','a','depends_on']",
    ),
    (
        "'resources':{'a':{'type':'Box','properties':{'size':{'get_attr':['b','colour']}}},'b':{'type':'Q'}}",
        "{}",
        "A01 ['resources','b','type']",
    ),
    (
        "'resources':{'a':{'type':'Box','properties':{'size':{'get_attr':['b','colour']}}},'b':{'type':'Box',\
        'condition':false}}",
        "{}",
        "A03 ['resources','a','properties','size']",
    ),
    (
        "'resources':{'a':{'type':'Q','condition':false}}",
        "{}",
        "A01 ['resources','a','type']",
    ),
    (
        "'outputs':{'o':{'value':{'get_resource':'x'}}}",
        "{}",
        "A02 ['outputs','o','value']",
    ),
    (
        "'outputs':{'o':{'value':[{'get_resource':'x'},{'yaql':1}],'condition':false}}",
        "{}",
        "A08 ['outputs','o','value',1]",
    ),
    (
        "'outputs':{'o':{'value':{'get_attr':['a','colour']}},'p':{'value':{'yaql':1}}},\
        'resources':{'a':{'type':'Box'}}",
        "{}",
        "A03 ['outputs','o','value']",
    ),
    (
        "'outputs':{'o':{'value':{'get_attr':['a','colour']},\
        'condition':{'equals':[1,{'if':[true,1,{'get_file':'h'}]}]}}},\
        'resources':{'a':{'type':'Box'}}",
        "{}",
        "A02 ['outputs','o','condition','equals',1,'if',2]",
    ),
    (
        "'outputs':{'o':{'value':{'yaql':1}}},'resources':{'b':{'type':'Box','depends_on':'b'}}",
        "{}",
        "A08 ['outputs','o','value']",
    ),
    (
        "'resources':{'a':{'type':'Box','depends_on':'b'},'b':{'type':'Box',\
        'properties':{'link':{'get_resource':'a'}}}}",
        "{}",
        "A04 ['a','b']",
    ),
    (
        "'resources':{'a':{'type':'Box','depends_on':'b'},'b':{'type':'Box','depends_on':['d','c']},\
        'c':{'type':'Box',\
        'depends_on':'b'},'d':{'type':'Box'}}",
        "{}",
        "A04 ['b','c']",
    ),
    (
        "'conditions':{'c':{'get_param':'OS::stack_name'}},'resources':{'a':{'type':'Q'}}",
        "{}",
        "C02 ['conditions','c']",
    ),
    (
        "'conditions':{'c':'c'},'resources':{'a':{'type':'Q'}}",
        "{}",
        "C01 ['conditions','c']",
    ),
];

#[test]
fn templates_are_refused(rt: HostRuntime) -> Result<(), Fail> {
    let wrong = wrong_among(rt.alloc(), &Admitted, REFUSED)?;
    assert_eq!(rt; wrong.as_str(), "");
    Ok(())
}
